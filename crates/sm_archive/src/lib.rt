//! The archive: a log of entries on a disk, with an index in memory.
#![tactic(auto)]

mod admit;
mod answers;
mod archive;
mod check;
mod declare;
mod fetch;
mod index;
mod keep;
mod law;
mod limits;
mod look;
mod opened;
mod ready;

pub use answers::{Declared, DiskFault, Keeping};
pub use archive::Archive;
pub use fetch::Fetched;
pub use law::{an_image_fits, bodies_have_one_log, fewer_images_stand};
pub use limits::Limits;
pub use opened::{OpenFault, open_store};
