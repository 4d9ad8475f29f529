//! Byte ends: where bytes come from and go to. Each end counts its faults, so that an answer which blames an end can be
//! held against its count. Beside the traits stand the ends that live in memory, of which tests choose the faults.
#![tactic(auto)]

mod calls;
mod counted;
mod ends;
mod input;
mod memory_sink;
mod memory_source;
mod memory_tracks;
mod output;
mod short;
mod tracks;

pub use calls::Calls;
pub use counted::CountedSource;
pub use ends::{Failed, Sink, Source};
pub use input::{INPUT_MOST, InputFault, read_input};
pub use memory_sink::MemorySink;
pub use memory_source::MemorySource;
pub use memory_tracks::MemoryTracks;
pub use output::write_all;
pub use short::{ShortSink, ShortSource};
pub use tracks::Tracks;
