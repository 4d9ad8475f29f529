//! Who chooses the quality of the next request: the trait, and three policies.
#![tactic(auto)]

mod fixed;
mod ladder;
mod policy;
mod steps;

pub use fixed::Fixed;
pub use ladder::Ladder;
pub use policy::{Heard, Outcome, Policy};
pub use steps::Steps;
