//! What the bytes that a connection sends give: requests, and the headers and fragments of its pushes.
#![tactic(auto)]

mod item;
pub mod law;
mod plain;

pub use item::WireItem;
pub use plain::read_plainly;
