//! An edge: a store that is opened beside an origin, a relay into it, and a follower of its log.
#![tactic(auto)]

mod following;
mod opening;
mod relaying;

pub use following::{StoreFollow, follow_store};
pub use opening::{Edge, open_edge};
pub use relaying::{StoreRelay, relay_store};
