//! What is to be played.

use sm_fetch::Place;
use sm_model::{Name, Sequence};

/// Names of streams, which contracts see as a list of lists of bytes.
pub type Names = Sequence<Name>;

/// What is to be played, and how patiently.
#[derive(Debug, Drop)]
pub struct Plan {
    pub place: Place,
    /// 1 to 16 names, of which some may be equal. The stream of place `k`, from 0, goes to track `k`.
    pub streams: Names,
    /// The first start, in ticks of the stream's timescale; where it is absent, the first that is listed.
    pub from: Option<u64>,
    /// How many fragments of each stream, at most 2^32 - 1.
    pub count: u64,
    /// How often each manifest and each fragment is asked for at most, at least 1.
    pub tries: u32,
    /// How many manifests are read for one start at most, at least 1.
    pub refresh: u32,
}
