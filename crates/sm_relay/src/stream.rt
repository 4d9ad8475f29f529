//! One stream of a manifest, pulled.
ghost use Rattle.std.specs.Prelude.{◌≡◌, List, [], None, IfOk, OnOk, IfErr, IsErrOf, ◌∷◌};
ghost use Rattle.sm_model.specs.declared.entry.Entry.{Entry};
ghost use Rattle.sm_archive.specs.Stands.{Stands};
ghost use Rattle.sm_site.specs.Clauses.{Rose};
ghost use Rattle.sm_pull.specs.declared.stop.Stop.TheVariants as stop;
ghost use Rattle.sm_log.specs.Adds.{tracks_of};
ghost use Rattle.sm_relay.specs.Wants.{wants_at, wants_over};
ghost use Rattle.sm_relay.specs.Pulls.{Pulls, PullStops};

use crate::one::pull_one;
use sm_archive::Archive;
use sm_fetch::Dial;
use sm_manin::StreamListing;
use sm_model::Track;
use sm_pull::{PullPlan, Stop};
use sm_site::Disk;
use std::alloc::Global;

// One track at one time, if it is of the stream.
fn pull_track<C: Dial, D: Disk>(
    alloc: Global,
    dial: &mut C,
    disk: &mut D,
    archive: &mut Archive,
    plan: &PullPlan,
    track: &Track,
    stream: &StreamListing,
    time: u64,
) -> Result<(), Stop>
    requires stands { (log : List Entry) × Stands archive.old log None (D.seen.may_leave disk.old) }
    ensures ok { OnOk result ((log : List Entry) → Stands archive.old log None (D.seen.may_leave disk.old)
        → Pulls D.seen C.log C.store C.later C.dial_faults C.chosen plan.now disk.old disk.new dial.old dial.new archive.old archive.new log
        (wants_at stream.now.pattern time (tracks_of stream.now.name (track.now ∷ [])))) }
    ensures err { IfErr result (λ why. (log : List Entry) → Stands archive.old log None (D.seen.may_leave disk.old)
        → PullStops D.seen C.log C.store C.later C.dial_faults C.chosen plan.now disk.old disk.new dial.old dial.new archive.old archive.new log
        (wants_at stream.now.pattern time (tracks_of stream.now.name (track.now ∷ []))) why) }
    ensures fault { IsErrOf result stop.DiskFault → Rose (D.seen.view disk.old).disk_faults (D.seen.view disk.new).disk_faults }
{
    if track.name != stream.name {
        return Ok(());
    }
    pull_one(
        alloc,
        dial,
        disk,
        archive,
        plan,
        stream.pattern.as_slice(),
        track,
        time,
    )
}

// All tracks of the stream at one time.
fn pull_time<C: Dial, D: Disk>(
    alloc: Global,
    dial: &mut C,
    disk: &mut D,
    archive: &mut Archive,
    plan: &PullPlan,
    channel: &[Track],
    stream: &StreamListing,
    time: u64,
) -> Result<(), Stop>
    requires stands { (log : List Entry) × Stands archive.old log None (D.seen.may_leave disk.old) }
    ensures ok { OnOk result ((log : List Entry) → Stands archive.old log None (D.seen.may_leave disk.old)
        → Pulls D.seen C.log C.store C.later C.dial_faults C.chosen plan.now disk.old disk.new dial.old dial.new archive.old archive.new log
        (wants_at stream.now.pattern time (tracks_of stream.now.name channel.now))) }
    ensures err { IfErr result (λ why. (log : List Entry) → Stands archive.old log None (D.seen.may_leave disk.old)
        → PullStops D.seen C.log C.store C.later C.dial_faults C.chosen plan.now disk.old disk.new dial.old dial.new archive.old archive.new log
        (wants_at stream.now.pattern time (tracks_of stream.now.name channel.now)) why) }
    ensures fault { IsErrOf result stop.DiskFault → Rose (D.seen.view disk.old).disk_faults (D.seen.view disk.new).disk_faults }
{
    for track in channel {
        pull_track(alloc, dial, disk, archive, plan, track, stream, time)?;
    }
    Ok(())
}

/// All listed times of a stream, each in all tracks that the channel has of it.
pub fn pull_stream<C: Dial, D: Disk>(
    alloc: Global,
    dial: &mut C,
    disk: &mut D,
    archive: &mut Archive,
    plan: &PullPlan,
    channel: &[Track],
    stream: &StreamListing,
) -> Result<(), Stop>
    requires stands { (log : List Entry) × Stands archive.old log None (D.seen.may_leave disk.old) }
    ensures ok { OnOk result ((log : List Entry) → Stands archive.old log None (D.seen.may_leave disk.old)
        → Pulls D.seen C.log C.store C.later C.dial_faults C.chosen plan.now disk.old disk.new dial.old dial.new archive.old archive.new log
        (wants_over stream.now.pattern (tracks_of stream.now.name channel.now) stream.now.times)) }
    ensures err { IfErr result (λ why. (log : List Entry) → Stands archive.old log None (D.seen.may_leave disk.old)
        → PullStops D.seen C.log C.store C.later C.dial_faults C.chosen plan.now disk.old disk.new dial.old dial.new archive.old archive.new log
        (wants_over stream.now.pattern (tracks_of stream.now.name channel.now) stream.now.times) why) }
    ensures fault { IsErrOf result stop.DiskFault → Rose (D.seen.view disk.old).disk_faults (D.seen.view disk.new).disk_faults }
{
    for time in stream.times.as_slice() {
        pull_time(alloc, dial, disk, archive, plan, channel, stream, time.0)?;
    }
    Ok(())
}
