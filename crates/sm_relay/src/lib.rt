//! A relay: an edge that pulls what an origin lists, into a store that can be served ([MS-SSTR] 3.2).
#![tactic(auto)]

mod ask;
mod call;
mod law;
mod one;
mod report;
mod round;
mod rounds;
mod stream;

pub use call::relay;
pub use law::{rounds_are_short, what_is_kept_was_read};
pub use report::{RelayEnd, RelayReport};
