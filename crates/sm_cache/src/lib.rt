//! A cache of kept fragments: of so many, those that were used last.
#![tactic(auto)]

mod cache;

pub use cache::{Cache, Kept};
