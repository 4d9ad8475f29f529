//! The catalog of a channel: what is kept of each stream, where, and what is listed of it.
#![tactic(auto)]

mod added;
mod catalog;
mod checked;
mod lookup;
mod parts;
mod stream;

pub use added::Added;
pub use catalog::Catalog;
pub use lookup::track_place;
pub use sm_log::{Checked, Judged};
