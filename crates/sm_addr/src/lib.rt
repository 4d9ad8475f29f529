//! Targets of requests: what the bytes between the method and the version name, and how they are written ([MS-SSTR] 2.2.1,
//! 2.2.3; RFC 9112, section 3.2).
#![tactic(auto)]

mod cut;
pub mod law;
mod path;
mod put;
mod read;
mod time;

pub use put::put_target;
pub use read::read_target;
pub use sm_model::{Address, Target};
