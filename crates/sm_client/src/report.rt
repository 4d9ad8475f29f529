//! How a play ended.
use crate::Outcomes;

/// What came in place of a manifest or a fragment.
#[derive(Clone, Copy, Debug, PartialEq, Eq)]
pub enum Miss {
    /// The dial failed.
    Lost,
    /// The front of a reply.
    Cut,
    /// No reply, or a 200 whose body isn't what was asked. `at` counts from the first byte of the answer.
    Unreadable { at: u64 },
    /// A whole reply with another status than 200.
    Status(u16),
}

/// Why a play ended.
#[derive(Debug, Drop)]
pub enum End {
    /// As many fragments of each stream as were wanted were written.
    Done,
    /// The expected start isn't known, and the last of the manifests that were read for it lists nothing at or behind it.
    NoMore { expected: u64 },
    /// The expected start isn't known, and the last manifest lists a later one, of which `next` is the first.
    Hole { expected: u64, next: u64 },
    /// None of the tries at this start gave a fragment.
    GaveUp { time: u64, outcomes: Outcomes },
    /// None of the tries at the manifest gave one.
    NoManifest { outcomes: Outcomes },
    /// The first manifest that was read for the stream of this place in the plan, from 0, doesn't have it.
    NoStream { index: u32 },
    /// A track failed.
    WriteFault,
    NoMemory,
}

/// What a play did.
#[derive(Debug, Drop)]
pub struct Report {
    /// How many fragments were written, over all streams.
    pub played: u64,
    pub end: End,
}
