//! A standby: the log of a primary, rebuilt entry by entry.
#![tactic(auto)]

mod again;
mod asking;
mod call;
mod candidates;
mod following;
mod held;
mod law;
mod listed;
mod placing;
mod report;
mod round;

pub use call::follow;
pub use held::{Held, Later};
pub use law::{rounds_are_bounded, what_is_kept_was_read};
pub use report::{FollowEnd, FollowReport};
pub use sm_pull::PullPlan as FollowPlan;
