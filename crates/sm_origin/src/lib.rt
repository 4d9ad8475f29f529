//! The origin of one store: each act of a connection is one step of a log, and its reply is the bytes that the log gives.
#![tactic(auto)]

mod act;
mod asking;
mod counts;
mod kept;
pub mod law;
mod listing;
mod origin;
mod recalling;
pub mod shown;
mod told;
mod writing;

pub use origin::Origin;
pub use sm_reply::{Counted, Reply};
