//! One address, pulled.
ghost use Rattle.std.specs.Prelude.{◌≡◌, List, [], None, IfOk, OnOk, IfErr, IsErrOf, ◌∷◌};
ghost use Rattle.sm_model.specs.declared.entry.Entry.{Entry};
ghost use Rattle.sm_archive.specs.Stands.{Stands};
ghost use Rattle.sm_site.specs.Clauses.{Rose};
ghost use Rattle.sm_pull.specs.declared.stop.Stop.TheVariants as stop;
ghost use Rattle.sm_pull.specs.Tracks.{address_at};
ghost use Rattle.sm_relay.specs.Pulls.{Pulls, PullStops};

use crate::ask::{Asked, ask};
use sm_archive::Archive;
use sm_fetch::Dial;
use sm_model::{NoMemory, Track};
use sm_pull::{PullPlan, Stop, address_at, fragment_of, is_kept, keep};
use sm_site::Disk;
use std::alloc::Global;

/// Asks for what is listed of a track at that start, by the Url of its stream, and keeps it, where it isn't kept yet.
pub fn pull_one<C: Dial, D: Disk>(
    alloc: Global,
    dial: &mut C,
    disk: &mut D,
    archive: &mut Archive,
    plan: &PullPlan,
    url: &[u8],
    track: &Track,
    time: u64,
) -> Result<(), Stop>
    requires stands { (log : List Entry) × Stands archive.old log None (D.seen.may_leave disk.old) }
    ensures ok { OnOk result ((log : List Entry) → Stands archive.old log None (D.seen.may_leave disk.old)
        → Pulls D.seen C.log C.store C.later C.dial_faults C.chosen plan.now disk.old disk.new dial.old dial.new archive.old archive.new log
        ((record { url = url.now; address = address_at track.now time }) ∷ [])) }
    ensures err { IfErr result (λ why. (log : List Entry) → Stands archive.old log None (D.seen.may_leave disk.old)
        → PullStops D.seen C.log C.store C.later C.dial_faults C.chosen plan.now disk.old disk.new dial.old dial.new archive.old archive.new log
        ((record { url = url.now; address = address_at track.now time }) ∷ []) why) }
    ensures fault { IsErrOf result stop.DiskFault → Rose (D.seen.view disk.old).disk_faults (D.seen.view disk.new).disk_faults }
{
    let Ok(address) = address_at(alloc, track, time) else {
        return Err(Stop::NoMemory);
    };
    if is_kept(archive, &address) {
        return Ok(());
    }
    match ask(alloc, dial, plan, url, &address) {
        Asked::Took(raw) => match fragment_of(alloc, track, raw) {
            Ok(fragment) => keep(alloc, disk, archive, &fragment, address),
            Err(NoMemory) => Err(Stop::NoMemory),
        },
        Asked::GaveUp(outcomes) => Err(Stop::GaveUp { address, outcomes }),
        Asked::NoMemory => Err(Stop::NoMemory),
    }
}
