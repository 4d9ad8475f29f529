//! The commands of the program: what each comes to, the line that is printed and the status.
#![tactic(auto)]

mod answer;
mod command;
mod edges;
mod exports;
mod misses;
mod origins;
mod play;
mod printing;
mod rehearse;
mod stores;

pub use answer::{Answer, Stop};
pub use command::{starved, tool};
pub use printing::print;
pub use stores::{or_starved, refused};
