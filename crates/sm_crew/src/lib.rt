//! The spawner of a machine: players over sockets, which take the connections of one listener, each in a thread of its own.
#![tactic(auto)]

mod listeners;
mod loop_forward;
mod real_crew;

pub use loop_forward::{DialForward, LoopForward};
pub use real_crew::RealCrew;
