//! Tracks as they stand in the text of a live manifest.

use sm_model::{Bytes, Kind, Sequence};

/// Where the text of a live manifest comes from.
#[derive(Clone, Copy, Debug, PartialEq, Eq)]
pub enum Form {
    /// A push: the track_IDs tie the tracks to a `moov`, which has their timescales.
    Pushed,
    /// A ladder: the tracks stand for themselves, with their timescales.
    Ladder,
}

/// The name of a param that is read.
#[derive(Clone, Copy, Debug, PartialEq, Eq)]
pub enum ParamName {
    SystemBitrate,
    TrackId,
    TrackName,
    TimeScale,
    FourCc,
    CodecPrivateData,
    MaxWidth,
    MaxHeight,
    AudioTag,
    Channels,
    SamplingRate,
    BitsPerSample,
    PacketSize,
}

/// A param of a track that is read, whether its value is one that fits or not.
#[derive(Debug, Drop)]
pub struct SmilParam {
    pub name: ParamName,
    pub value: Bytes,
    /// The place of its `<` in the text.
    pub at: u64,
}

/// Params in the order of the text, which contracts see as a list.
pub type SmilParams = Sequence<SmilParam>;

/// A track as it stands in the text of a live manifest, or what was read of it so far.
#[derive(Debug, Drop)]
pub struct RawTrack {
    pub kind: Kind,
    /// The place of its `<` in the text.
    pub at: u64,
    /// The value of its attribute `systemBitrate`.
    pub bitrate: Option<Bytes>,
    /// For each name that is read the first param of that name.
    pub params: SmilParams,
    /// The place of the first param whose name stood before.
    pub again: Option<u64>,
}
