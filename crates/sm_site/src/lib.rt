//! A disk and a link on one clock: the ends of an origin that outlive a crash of its machine or are seen by its peers. The
//! traits say what each call does, what a crash may leave at each moment, and which count blames whom. `MemorySite` is
//! both in memory: it tells all that was done, fails where it is told to, and crashes in place.
#![tactic(auto)]

mod crashing;
mod disk;
mod event;
mod files;
pub mod law;
mod link;
mod live;
mod memory;
mod memory_crash;
mod memory_disk;
mod memory_link;
mod next_number;
mod note;
mod numbers;
mod pending;
mod piece;
mod script;
mod selected;
mod selection;
mod site;
mod step;

pub use crashing::Crashing;
pub use disk::{Disk, Failed};
pub use event::{Event, LinkError, SiteError};
pub use link::Link;
pub use memory::MemorySite;
pub use numbers::Numbers;
pub use piece::Piece;
pub use script::Script;
pub use selected::Selected;
pub use selection::Selection;
pub use site::Site;
pub use step::{FileBytes, Pending, Step};
