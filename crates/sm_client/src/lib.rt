//! A client: plays streams of a live presentation from an origin, one after another, into tracks, and pushes an input to an origin
//! ([MS-SSTR] 3.2).
#![tactic(auto)]

mod call;
mod fault;
mod known;
mod law;
mod list;
mod outcomes;
mod piece;
mod plan;
mod policies;
mod pushing;
mod report;
mod rest;
mod seek;
mod standing;
mod stream;
mod write;

pub use call::play;
pub use fault::VisitFault;
pub use law::{fragments_are_the_origins, listings_are_the_origins, what_was_given_is_written};
pub use outcomes::{Outcomes, miss_of};
pub use plan::{Names, Plan};
pub use pushing::push_input;
pub use report::{End, Miss, Report};
