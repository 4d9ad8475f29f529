//! How a standby ended.

use sm_client::Outcomes;
use sm_model::{Address, Cause, NoMemory};
use sm_pull::Stop;

/// How a standby ended.
#[derive(Debug, Drop)]
pub enum FollowEnd {
    /// As many rounds as were wanted have ended, and no address waits. That isn't to say that nothing is missing: a fragment whose time
    /// isn't listed, and stands behind a gap, isn't asked for.
    Done,
    /// As many rounds as were wanted have ended, and addresses wait: the place in the log that comes next, and the least place that
    /// waits.
    Gap {
        place: u64,
        next: u64,
    },
    /// None of the tries at the manifest gave one.
    NoManifest {
        outcomes: Outcomes,
    },
    /// The manifest that was just read has no stream of the name of the track at this place of the channel, from 0, or one with
    /// another timescale or without its bitrate.
    NoTrack {
        index: u32,
    },
    /// None of the tries at this address gave a fragment, or told that none is kept there.
    GaveUp {
        address: Address,
        outcomes: Outcomes,
    },
    /// The fragment that was just read at this address has this track_ID, which isn't the place of its track in the channel, from 1.
    OtherId {
        address: Address,
        id: u32,
    },
    /// The store refuses the fragment that was just read at this address, whose place comes next.
    Refused {
        address: Address,
        cause: Cause,
    },
    /// One of the store's limits is met.
    Full,
    /// The disk failed. Its count of faults says so too.
    DiskFault,
    NoMemory,
}

/// What a standby did.
#[derive(Debug, Drop)]
pub struct FollowReport {
    /// How many fragments were kept, for which the store stands. One that a fault of the disk left in doubt isn't counted.
    pub kept: u64,
    pub end: FollowEnd,
}

impl From<NoMemory> for FollowEnd {
    ghost use Rattle.std.specs.Prelude.{◌≡◌};
    ghost use Rattle.sm_standby.specs.declared.report.FollowEnd.TheVariants as ends;

    ghost from_gives = { λ _ e. e ≡ ends.NoMemory };

    fn from(_: NoMemory) -> FollowEnd {
        FollowEnd::NoMemory
    }
}

impl From<Stop> for FollowEnd {
    ghost use Rattle.std.specs.Prelude.{◌≡◌};
    ghost use Rattle.sm_standby.specs.Ends.{end_of};

    ghost from_gives = { λ s e. e ≡ end_of s };

    fn from(stop: Stop) -> FollowEnd {
        match stop {
            Stop::NoManifest { outcomes } => FollowEnd::NoManifest { outcomes },
            Stop::NoTrack { index } => FollowEnd::NoTrack { index },
            Stop::GaveUp { address, outcomes } => FollowEnd::GaveUp { address, outcomes },
            Stop::Refused { address, cause } => FollowEnd::Refused { address, cause },
            Stop::Full => FollowEnd::Full,
            Stop::DiskFault => FollowEnd::DiskFault,
            Stop::NoMemory => FollowEnd::NoMemory,
        }
    }
}
