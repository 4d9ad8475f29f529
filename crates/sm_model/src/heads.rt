//! What a `moov` says of its tracks.

use crate::{Defaults, Sequence};

/// What holds for the samples of a track without a `trex` (ISO/IEC 14496-12, 8.8.3): all zero.
pub const NO_DEFAULTS: Defaults = Defaults {
    duration: 0,
    size: 0,
    flags: 0,
};

/// The head of one track (ISO/IEC 14496-12, 8.3.2, 8.4.2, 8.5.2 and 8.8.3).
#[derive(Clone, Copy, Debug, PartialEq, Eq)]
pub struct TrackHead {
    /// The track_ID.
    pub id: u32,
    /// In ticks a second, at least 1.
    pub timescale: u32,
    /// Whether the samples are encrypted: the first sample entry is `encv` or `enca`.
    pub protected: bool,
    /// What holds for samples whose fragments do not say it.
    pub defaults: Defaults,
}

/// Heads of tracks in the order of their boxes, which contracts see as a list.
pub type Heads = Sequence<TrackHead>;
