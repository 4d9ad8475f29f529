//! One round of a relay.
ghost use Rattle.std.specs.Prelude.{◌≡◌, List, [], None, IfOk, OnOk, IfErr, IsErrOf, ◌∷◌, ◌++◌, ◌≤◌, ◌<◌, take, length, slice_get, Some};
ghost use Rattle.sm_model.specs.declared.entry.Entry.{Entry};
ghost use Rattle.sm_archive.specs.Stands.{Stands};
ghost use Rattle.sm_site.specs.Clauses.{Rose};
ghost use Rattle.sm_pull.specs.declared.stop.Stop.TheVariants as stop;
ghost use Rattle.sm_model.specs.declared.track.Track.{Track};
ghost use Rattle.sm_log.specs.Adds.{names_of};
ghost use Rattle.sm_relay.specs.Wants.{wants_of, first_wants};
ghost use Rattle.sm_relay.specs.Pulls.{Pulls, PullStops};
ghost use Rattle.sm_relay.specs.Rounds.{RunsRound, BreaksRound};

use crate::stream::pull_stream;
use sm_archive::Archive;
use sm_fetch::Dial;
use sm_manin::Listing;
use sm_model::Track;
use sm_pull::{Manifest, PullPlan, Stop, first_missing, has_name, read_listing, stream_of};
use sm_site::Disk;
use std::alloc::Global;

// The stream of a track, where no track before it has its name.
fn pull_name<C: Dial, D: Disk>(
    alloc: Global,
    dial: &mut C,
    disk: &mut D,
    archive: &mut Archive,
    plan: &PullPlan,
    channel: &[Track],
    before: &[Track],
    track: &Track,
    listing: &Listing,
) -> Result<(), Stop>
    requires stands { (log : List Entry) × Stands archive.old log None (D.seen.may_leave disk.old) }
    ensures ok { OnOk result ((log : List Entry) → Stands archive.old log None (D.seen.may_leave disk.old)
        → Pulls D.seen C.log C.store C.later C.dial_faults C.chosen plan.now disk.old disk.new dial.old dial.new archive.old archive.new log
        (first_wants channel.now listing.now before.now track.now)) }
    ensures err { IfErr result (λ why. (log : List Entry) → Stands archive.old log None (D.seen.may_leave disk.old)
        → PullStops D.seen C.log C.store C.later C.dial_faults C.chosen plan.now disk.old disk.new dial.old dial.new archive.old archive.new log
        (first_wants channel.now listing.now before.now track.now) why) }
    ensures fault { IsErrOf result stop.DiskFault → Rose (D.seen.view disk.old).disk_faults (D.seen.view disk.new).disk_faults }
{
    if has_name(before, &track.name) {
        return Ok(());
    }
    match stream_of(listing, &track.name) {
        Some(stream) => pull_stream(alloc, dial, disk, archive, plan, channel, stream),
        None => Ok(()),
    }
}

// All streams of the channel, in the order in which their names first stand.
fn pull_listing<C: Dial, D: Disk>(
    alloc: Global,
    dial: &mut C,
    disk: &mut D,
    archive: &mut Archive,
    plan: &PullPlan,
    channel: &[Track],
    listing: &Listing,
) -> Result<(), Stop>
    requires stands { (log : List Entry) × Stands archive.old log None (D.seen.may_leave disk.old) }
    ensures ok { OnOk result ((log : List Entry) → Stands archive.old log None (D.seen.may_leave disk.old)
        → Pulls D.seen C.log C.store C.later C.dial_faults C.chosen plan.now disk.old disk.new dial.old dial.new archive.old archive.new log
        (wants_of channel.now listing.now)) }
    ensures err { IfErr result (λ why. (log : List Entry) → Stands archive.old log None (D.seen.may_leave disk.old)
        → PullStops D.seen C.log C.store C.later C.dial_faults C.chosen plan.now disk.old disk.new dial.old dial.new archive.old archive.new log
        (wants_of channel.now listing.now) why) }
    ensures fault { IsErrOf result stop.DiskFault → Rose (D.seen.view disk.old).disk_faults (D.seen.view disk.new).disk_faults }
{
    for (at, track) in channel.iter().enumerate() {
        let (before, _) = channel.split_at(at);
        pull_name(
            alloc, dial, disk, archive, plan, channel, before, track, listing,
        )?;
    }
    Ok(())
}

/// One round: a manifest is read, and all that it lists of the channel's tracks is pulled.
pub fn pull_round<C: Dial, D: Disk>(
    alloc: Global,
    dial: &mut C,
    disk: &mut D,
    archive: &mut Archive,
    plan: &PullPlan,
    channel: &[Track],
) -> Result<(), Stop>
    requires few { length channel.now ≤ 64 }
    requires stands { (log : List Entry) × Stands archive.old log None (D.seen.may_leave disk.old) }
    ensures ok { OnOk result ((log : List Entry) → Stands archive.old log None (D.seen.may_leave disk.old)
        → RunsRound D.seen C.log C.store C.later C.dial_faults C.chosen plan.now channel.now disk.old disk.new dial.old dial.new archive.old
        archive.new log) }
    ensures err { IfErr result (λ why. (log : List Entry) → Stands archive.old log None (D.seen.may_leave disk.old)
        → BreaksRound D.seen C.log C.store C.later C.dial_faults C.chosen plan.now channel.now disk.old disk.new dial.old dial.new archive.old
        archive.new log why) }
    ensures fault { IsErrOf result stop.DiskFault → Rose (D.seen.view disk.old).disk_faults (D.seen.view disk.new).disk_faults }
{
    match read_listing(alloc, dial, &plan.place, plan.tries) {
        Manifest::Read(listing) => match first_missing(channel, &listing) {
            Some(index) => Err(Stop::NoTrack {
                index: index as u32,
            }),
            None => pull_listing(alloc, dial, disk, archive, plan, channel, &listing),
        },
        Manifest::GaveUp(outcomes) => Err(Stop::NoManifest { outcomes }),
        Manifest::NoMemory => Err(Stop::NoMemory),
    }
}
