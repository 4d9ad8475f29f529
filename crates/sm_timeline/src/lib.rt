//! The timeline of one stream: its times in order, and what they say of a further fragment.
#![tactic(auto)]

mod by_time;
mod row;
mod search;
mod timeline;

pub use by_time::ByTime;
pub use sm_log::Decision;
pub use timeline::Timeline;
