//! A shelf for readers beside the loop: one writer publishes a digest of a log that only grows, and readers, each in a thread of its own,
//! answer requests from what was published. No reader sees what wasn't published, nor less than it has seen or was told.
#![tactic(auto)]

mod found;
mod laid;
pub mod law;
mod past;
mod readers;
mod replies;
mod rule;
mod shown;
mod stock;
mod told;
mod window;
mod writer;

pub use readers::ShelfReader;
pub use shown::Shown;
pub use told::Told;
pub use writer::{Readers, ShelfEnd, ShelfWriter, make};
