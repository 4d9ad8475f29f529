//! Why pulling stops.

use sm_client::Outcomes;
use sm_model::{Address, Cause};

/// Why pulling stops before its last round has ended.
#[derive(Debug, Drop)]
pub enum Stop {
    /// None of the tries at the manifest gave one.
    NoManifest {
        outcomes: Outcomes,
    },
    /// The manifest that was just read has no stream of the name of the track at this place of the channel, from 0, or one with
    /// another timescale or without its bitrate.
    NoTrack {
        index: u32,
    },
    /// None of the tries at this address gave a fragment.
    GaveUp {
        address: Address,
        outcomes: Outcomes,
    },
    /// The store refuses the fragment that was just read at this address.
    Refused {
        address: Address,
        cause: Cause,
    },
    /// One of the store's limits is met.
    Full,
    /// The disk failed. Its count of faults says so too.
    DiskFault,
    NoMemory,
}
