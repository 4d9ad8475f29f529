//! The loop of an origin with a shelf beside it: before the first event and behind each turn it brings what player threads are shown up to the log.
#![tactic(auto)]

mod catching;
mod outcome;
mod reading;
mod showing;

pub use catching::catch_up;
pub use outcome::{Lack, Up};
pub use showing::serve_shown;
