//! What a manifest lists.

use sm_model::{Bytes, Kind, Name, Pairs, Sequence};

/// One quality of a stream that is listed ([MS-SSTR] 2.2.2.5).
#[derive(Clone, Copy, Debug, PartialEq, Eq)]
pub struct Level {
    /// As it says, or its place among its stream's in the text, from 0, where it says none.
    pub index: u32,
    /// In bits a second.
    pub bitrate: u32,
}

/// Qualities in ascending order of bitrate, which contracts see as a list.
pub type Levels = Sequence<Level>;

/// One stream that is listed ([MS-SSTR] 2.2.2.3).
#[derive(Debug, Drop)]
pub struct StreamListing {
    pub kind: Kind,
    pub name: Name,
    /// In ticks a second.
    pub timescale: u32,
    /// The address of its fragments, behind the path, with its two places in braces.
    pub pattern: Bytes,
    pub levels: Levels,
    /// Starts and durations in ticks, in order of time.
    pub times: Pairs,
}

/// Streams in the order of the manifest, which contracts see as a list.
pub type Streams = Sequence<StreamListing>;

/// What a manifest lists.
#[derive(Debug, Drop)]
pub struct Listing {
    /// How many fragments ahead each fragment names.
    pub look: u32,
    pub streams: Streams,
}
