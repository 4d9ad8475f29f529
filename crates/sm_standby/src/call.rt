//! Following a primary.
ghost use Rattle.std.specs.Prelude.{◌≡◌, ◌<◌, List, None, Some};
ghost use Rattle.sm_model.specs.declared.entry.Entry.{Entry};
ghost use Rattle.sm_model.specs.declared.track.Track.{Track};
ghost use Rattle.sm_log.specs.Logs.{channel_of};
ghost use Rattle.sm_archive.specs.Stands.{Stands};
ghost use Rattle.sm_standby.specs.Rounds.{Called};
ghost use Rattle.sm_standby.specs.Placed.{Followed};

use crate::round::follow_channel;
use crate::{FollowEnd, FollowReport};
use sm_archive::Archive;
use sm_fetch::Dial;
use sm_model::NoMemory;
use sm_pull::{PullPlan, channel_of};
use sm_site::Disk;
use std::alloc::Global;

// As many rounds as the plan has, in the channel of the archive.
fn follow_store<C: Dial, D: Disk>(
    alloc: Global,
    dial: &mut C,
    disk: &mut D,
    archive: &mut Archive,
    plan: &PullPlan,
) -> FollowEnd
    requires rounds { 0 < plan.now.rounds }
    requires stands { (log : List Entry) × (channel : List Track) × Stands archive.old log None (D.seen.may_leave disk.old) × (channel_of log ≡ Some channel) }
    ensures { (log : List Entry) (channel : List Track) → Stands archive.old log None (D.seen.may_leave disk.old) → channel_of log ≡ Some channel
        → Called D.seen C.log C.store C.later C.dial_faults C.chosen disk.old disk.new dial.old dial.new plan.now channel
        archive.old archive.new log result }
{
    match channel_of(alloc, archive) {
        Err(NoMemory) => FollowEnd::NoMemory,
        Ok(channel) => follow_channel(alloc, dial, disk, archive, plan, channel.as_slice()),
    }
}

/// Rebuilds the log of a primary, entry by entry, in an archive that has a channel and isn't in doubt: in each round it reads the manifest
/// ([MS-SSTR] 2.2.1, 2.2.2), and asks for the fragments at the starts and the ends of the times that are listed of the channel's tracks
/// ([MS-SSTR] 2.2.3), of which each comes with its place in the primary's log as its sequence number ([MS-SSTR] 2.2.4; ISO/IEC 14496-12,
/// 8.8.5). What has the next place is kept; an address whose place comes later waits for it, and is then asked for again. Between two
/// tries, and between two rounds, the dial pauses.
pub fn follow<C: Dial, D: Disk>(
    alloc: Global,
    dial: &mut C,
    disk: &mut D,
    archive: &mut Archive,
    plan: &PullPlan,
) -> FollowReport
    requires rounds { 0 < plan.now.rounds }
    requires stands { (log : List Entry) × (channel : List Track) × Stands archive.old log None (D.seen.may_leave disk.old) × (channel_of log ≡ Some channel) }
    ensures followed { (log : List Entry) (channel : List Track) → Stands archive.old log None (D.seen.may_leave disk.old) → channel_of log ≡ Some channel
        → Followed D.seen C.log C.store C.later C.dial_faults C.chosen disk.old disk.new dial.old dial.new plan.now channel
        archive.old archive.new log result }
{
    let before = archive.len();
    let end = follow_store(alloc, dial, disk, archive, plan);
    FollowReport {
        kept: archive.len().saturating_sub(before),
        end,
    }
}
