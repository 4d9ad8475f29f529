//! Logs of what is kept: which are sound, what is said of a further fragment, what is listed, and the laws of all of it. The
//! definitions stand in `specs/`; beside them stand plain, slow programs that compute them.
#![tactic(auto)]

pub mod law;
pub mod plain;
mod times;
mod tracks;
mod verdict;

pub use tracks::count_tracks;
pub use verdict::{Checked, Decision, Judged};
