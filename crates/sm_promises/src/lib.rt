//! The promises of the README, one law for each row of its table, and the call of the program that they are proved of.
#![tactic(auto)]

mod call;
pub mod law;
pub mod witness;

pub use call::promised;
