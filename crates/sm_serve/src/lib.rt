//! The loop of the origin: it takes the events of a site, hands what connections sent to the origin as acts, and sends the replies.
#![tactic(auto)]

mod answer;
mod body;
mod handler;
mod item;
pub mod law;
mod live;
mod outcome;
mod part;
mod piece;
mod push;
mod serving;
pub mod shown;
mod state;
mod still;
mod tell;
mod texts;

pub use live::Live;
pub use outcome::{Served, Turn};
pub use push::OpenPush;
pub use serving::{serve, turn};
pub use state::State;
pub use texts::TOO_MANY;
