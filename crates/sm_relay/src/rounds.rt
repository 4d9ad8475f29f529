//! Rounds of a relay.
ghost use Rattle.std.specs.Prelude.{◌≡◌, List, [], None, IfOk, OnOk, IfErr, IsErrOf, ◌≤◌, length};
ghost use Rattle.sm_model.specs.declared.entry.Entry.{Entry};
ghost use Rattle.sm_archive.specs.Stands.{Stands};
ghost use Rattle.sm_site.specs.Clauses.{Rose};
ghost use Rattle.sm_pull.specs.declared.stop.Stop.TheVariants as stop;
ghost use Rattle.sm_relay.specs.Ends.{Ran, RanOut};

use crate::round::pull_round;
use sm_archive::Archive;
use sm_fetch::Dial;
use sm_model::Track;
use sm_pull::{PullPlan, Stop, rest};
use sm_site::Disk;
use std::alloc::Global;

/// As many rounds as the plan has, with a pause between two.
pub fn pull_rounds<C: Dial, D: Disk>(
    alloc: Global,
    dial: &mut C,
    disk: &mut D,
    archive: &mut Archive,
    plan: &PullPlan,
    channel: &[Track],
) -> Result<(), Stop>
    requires few { length channel.now ≤ 64 }
    requires stands { (log : List Entry) × Stands archive.old log None (D.seen.may_leave disk.old) }
    ensures ok { OnOk result ((log : List Entry) → Stands archive.old log None (D.seen.may_leave disk.old)
        → Ran D.seen C.log C.store C.later C.dial_faults C.chosen plan.now channel.now disk.old disk.new dial.old dial.new archive.old archive.new
        log plan.now.rounds) }
    ensures err { IfErr result (λ why. (log : List Entry) → Stands archive.old log None (D.seen.may_leave disk.old)
        → RanOut D.seen C.log C.store C.later C.dial_faults C.chosen plan.now channel.now disk.old disk.new dial.old dial.new archive.old
        archive.new log why) }
    ensures fault { IsErrOf result stop.DiskFault → Rose (D.seen.view disk.old).disk_faults (D.seen.view disk.new).disk_faults }
{
    for round in 0..plan.rounds {
        rest(dial, round > 0);
        pull_round(alloc, dial, disk, archive, plan, channel)?;
    }
    Ok(())
}
