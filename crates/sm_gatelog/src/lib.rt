//! A list of bodies in one file of a disk. A gate byte stands before each record, and is opened by a write of its own once
//! the record is on the disk, so that a crash leaves the bodies from before, or these and the new one.
#![tactic(auto)]

mod answer;
mod append;
mod fresh;
pub mod law;
mod log;
mod open;
mod slot;
mod walk;
mod window;
mod write;

pub use answer::{Appended, LogFault, ReadFault, Settled};
pub use log::GateLog;
pub use slot::Slot;
