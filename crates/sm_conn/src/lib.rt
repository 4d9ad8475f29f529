//! The bytes of a connection as requests and bodies of pushes, however they are cut.
#![tactic(auto)]

mod conn;
pub mod law;
mod part;

pub use conn::{Conn, State};
pub use part::{Part, Parts};
