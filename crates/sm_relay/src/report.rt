//! How a relay ended.

use sm_client::Outcomes;
use sm_model::{Address, Cause};
use sm_pull::Stop;

/// How a relay ended. What was kept before stays kept.
#[derive(Debug, Drop)]
pub enum RelayEnd {
    /// As many rounds as were wanted have ended.
    Done,
    /// None of the tries at the manifest gave one. What came in place of it, in order.
    NoManifest {
        outcomes: Outcomes,
    },
    /// The manifest that was just read has no stream of the name of the track at this place of the channel, from 0, or one with
    /// another timescale or without its bitrate. It is the first such track.
    NoTrack {
        index: u32,
    },
    /// None of the tries at this address gave a fragment. What came in place of it, in order.
    GaveUp {
        address: Address,
        outcomes: Outcomes,
    },
    /// The store refuses the fragment that was just read at this address.
    Refused {
        address: Address,
        cause: Cause,
    },
    /// One of the store's limits is met.
    Full,
    /// The disk failed. Its count of faults says so too. What was read last may be in doubt.
    DiskFault,
    NoMemory,
}

/// What a relay did.
#[derive(Debug, Drop)]
pub struct RelayReport {
    /// How many fragments were kept. One in doubt isn't counted.
    pub kept: u64,
    pub end: RelayEnd,
}

impl From<Stop> for RelayEnd {
    ghost use Rattle.std.specs.Prelude.{◌≡◌};
    ghost use Rattle.sm_relay.specs.Ends.{end_of};

    ghost from_gives = { λ s e. e ≡ end_of s };

    fn from(stop: Stop) -> RelayEnd {
        match stop {
            Stop::NoManifest { outcomes } => RelayEnd::NoManifest { outcomes },
            Stop::NoTrack { index } => RelayEnd::NoTrack { index },
            Stop::GaveUp { address, outcomes } => RelayEnd::GaveUp { address, outcomes },
            Stop::Refused { address, cause } => RelayEnd::Refused { address, cause },
            Stop::Full => RelayEnd::Full,
            Stop::DiskFault => RelayEnd::DiskFault,
            Stop::NoMemory => RelayEnd::NoMemory,
        }
    }
}
