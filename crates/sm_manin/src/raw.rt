//! The elements of a manifest as they stand in its text.

use sm_model::{Bytes, Sequence};

/// A `c` element: one time or a run of them.
#[derive(Debug, Drop)]
pub struct RawTime {
    /// The place of its `<` in the text.
    pub at: u64,
    pub t: Option<Bytes>,
    pub d: Option<Bytes>,
    pub r: Option<Bytes>,
}

/// Elements `c` in the order of the text, which contracts see as a list.
pub type RawTimes = Sequence<RawTime>;

/// A `QualityLevel` element.
#[derive(Debug, Drop)]
pub struct RawLevel {
    /// The place of its `<` in the text.
    pub at: u64,
    pub index: Option<Bytes>,
    pub bitrate: Option<Bytes>,
}

/// Elements `QualityLevel` in the order of the text, which contracts see as a list.
pub type RawLevels = Sequence<RawLevel>;

/// A `StreamIndex` element with its children, or what was read of it so far.
#[derive(Debug, Drop)]
pub struct RawStream {
    /// The place of its `<` in the text.
    pub at: u64,
    pub kind_text: Option<Bytes>,
    pub url: Option<Bytes>,
    pub name: Option<Bytes>,
    pub timescale: Option<Bytes>,
    pub levels: RawLevels,
    pub times: RawTimes,
}

/// The outermost element.
#[derive(Debug, Drop)]
pub struct RawRoot {
    /// The place of its `<` in the text.
    pub at: u64,
    pub major: Option<Bytes>,
    pub look: Option<Bytes>,
    pub lookahead: Option<Bytes>,
    pub timescale: Option<Bytes>,
}
