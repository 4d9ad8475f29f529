//! Where the body of a message stands among the bytes behind its head: absent, counted, or in chunks (RFC 9112, sections 6
//! and 7). A `Framer` is given the bytes as they come, cut anywhere, and holds none of them.
#![tactic(auto)]

mod chunk;
mod framer;
pub mod law;
mod next;
mod place;
mod plain;
mod trailer;

pub use framer::{Framer, Step};
pub use place::Place;
pub use plain::{PlainBody, read_plainly};
pub use sm_model::Framing;
