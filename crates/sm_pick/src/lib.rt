//! One fragment of a push, picked out of an input.
#![tactic(auto)]

pub mod law;
mod picked;
mod reading;
mod search;
mod seek;
mod sentences;
mod skim;

pub use picked::Picked;
pub use reading::pick;
pub use search::refusal_line;
pub use sentences::sentence;
