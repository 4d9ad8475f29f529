//! An origin on a site that crashes, as a dial: exchanges whose reply is lost or cut where that is asked for, and crashes
//! between them. The log of the store goes on through all of it. And a rehearsal over it: encoders push, the site crashes, clients play.
#![tactic(auto)]

mod acted;
mod asking;
mod client;
mod clients;
mod dial;
mod draws;
mod encoders;
mod equal;
mod exchange;
mod header;
mod kind;
pub mod law;
mod memory;
mod opening;
mod reading;
mod rehearsal;
mod stage;
mod told;

pub use acted::Acted;
pub use dial::OriginDial;
pub use kind::Kind;
pub use rehearsal::{Rehearsal, Summary, rehearse};
pub use told::Told;
