//! The top call of the program: a store is served beside player threads, and every other command is the tool's.
#![tactic(auto)]

mod command;
mod fault;
mod showing;
mod staffing;
mod stores;
mod telling;

pub use command::run;
pub use fault::ShowFault;
