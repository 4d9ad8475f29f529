//! What the boxes of a fragment say, before a channel gives it a stream and a bitrate.

use crate::{Samples, Sequence};

/// What holds for samples of a track whose fragments do not say it (`trex`, ISO/IEC 14496-12, 8.8.3).
#[derive(Clone, Copy, Debug, PartialEq, Eq)]
pub struct Defaults {
    /// In ticks of the track's timescale.
    pub duration: u32,
    /// In bytes.
    pub size: u32,
    /// The sample flags (ISO/IEC 14496-12, 8.8.3.1).
    pub flags: u32,
}

/// A sample as its `trun` describes it, with every field resolved and without its bytes (ISO/IEC 14496-12, 8.8.8).
#[derive(Clone, Copy, Debug, PartialEq, Eq)]
pub struct Row {
    /// In ticks of the track's timescale.
    pub duration: u32,
    /// In bytes.
    pub size: u32,
    /// The sample flags (ISO/IEC 14496-12, 8.8.3.1).
    pub flags: u32,
    /// The composition time offset in ticks of the track's timescale: its 32 bits, whose sign the run says.
    pub offset: u32,
}

/// Rows, which contracts see as a list.
pub type Rows = Sequence<Row>;

/// Times and durations, in ticks of the track's timescale, which contracts see as a list.
pub type Pairs = Sequence<(u64, u64)>;

/// What a `traf` says (ISO/IEC 14496-12, 8.8.6 to 8.8.8; [MS-SSTR] 2.2.4.4 and 2.2.4.5).
#[derive(Debug, Drop)]
pub struct Run {
    /// The track_ID.
    pub id: u32,
    /// The absolute start in ticks of the track's timescale.
    pub time: u64,
    /// In ticks of the track's timescale.
    pub duration: u64,
    /// Whether the composition offsets are signed.
    pub signed: bool,
    /// Where the samples start, in bytes from the first byte of the `moof`. None: where the body of the `mdat` starts.
    pub start: Option<i64>,
    pub samples: Rows,
    /// Times and durations of fragments that follow.
    pub ahead: Pairs,
}

/// What a `moof` and its `mdat` say: a fragment of the track with this track_ID, of a stream that is not known here.
#[derive(Debug, Drop)]
pub struct RawFragment {
    /// The track_ID.
    pub id: u32,
    /// The absolute start in ticks of the track's timescale.
    pub time: u64,
    /// In ticks of the track's timescale.
    pub duration: u64,
    /// Whether the composition offsets are signed.
    pub signed: bool,
    pub samples: Samples,
    /// Times and durations of fragments that follow.
    pub ahead: Pairs,
}
