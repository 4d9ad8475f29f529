//! Tracks of a live manifest.

use crate::{Sequence, Track};

/// A track of a live manifest.
#[derive(Debug, Drop)]
pub struct SmilTrack {
    /// The track_ID under which the `moov` has it.
    pub id: u32,
    /// Its timescale is 0, since the `moov` says it.
    pub track: Track,
}

/// The tracks of a live manifest in the order of the text, which contracts see as a list.
pub type Smil = Sequence<SmilTrack>;
