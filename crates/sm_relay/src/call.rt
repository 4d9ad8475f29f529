//! A relay, whole.
ghost use Rattle.std.specs.Prelude.{◌≡◌, ◌<◌, ◌++◌, List, Option, None, Some, IsSome, Contains, length};
ghost use Rattle.std.specs.List.{AllByRecursion};
ghost use Rattle.sm_model.specs.declared.entry.Entry.{Entry};
ghost use Rattle.sm_model.specs.declared.track.Track.{Track};
ghost use Rattle.sm_log.specs.Logs.{channel_of};
ghost use Rattle.sm_archive.specs.Stands.{Stands};
ghost use Rattle.sm_site.specs.Clauses.{Rose, Throughout};
ghost use Rattle.sm_site.specs.Meanings.{DiskAlone};
ghost use Rattle.sm_fetch.specs.declared.dial.Exchange.{Exchange};
ghost use Rattle.sm_fetch.specs.Exchanges as exchanges;
ghost use Rattle.sm_client.specs.declared.report.Miss.TheVariants as miss;
ghost use Rattle.sm_pull.specs.Asks.{Asks};
ghost use Rattle.sm_pull.specs.Adds.{keeps_of};
ghost use Rattle.sm_pull.specs.Below.{Below};
ghost use Rattle.sm_relay.specs.Rounds.{kept_in};
ghost use Rattle.sm_relay.specs.Ends.{Relayed, KeepsListed};
ghost use Rattle.sm_relay.specs.Read.{carried};
ghost use Rattle.sm_relay.specs.Served.{Serves, IsOffered, LeavesBelow, EndsWell};
ghost use Rattle.sm_pull.specs.Patience.{IsPatient};
ghost use Rattle.sm_relay.specs.declared.report.RelayEnd.TheVariants as ends;

use crate::rounds::pull_rounds;
use crate::{RelayEnd, RelayReport};
use sm_archive::Archive;
use sm_fetch::Dial;
use sm_model::NoMemory;
use sm_pull::{PullPlan, channel_of};
use sm_site::Disk;
use std::alloc::Global;

// As many rounds as the plan has, or until one breaks off.
fn relay_all<C: Dial, D: Disk>(
    alloc: Global,
    dial: &mut C,
    disk: &mut D,
    archive: &mut Archive,
    plan: &PullPlan,
) -> RelayEnd
    requires stands { (log : List Entry) × (channel : List Track) × Stands archive.old log None (D.seen.may_leave disk.old) × (channel_of log ≡ Some channel) }
    requires rounds { 0 < plan.now.rounds }
    ensures relayed { (log : List Entry) (channel : List Track) → Stands archive.old log None (D.seen.may_leave disk.old) → channel_of log ≡ Some channel
        → Relayed D.seen C.log C.store C.later C.dial_faults C.chosen plan.now channel disk.old disk.new dial.old dial.new archive.old archive.new
        log result }
    ensures fault { result ≡ ends.DiskFault → Rose (D.seen.view disk.old).disk_faults (D.seen.view disk.new).disk_faults }
{
    match channel_of(alloc, archive) {
        Ok(channel) => {
            match pull_rounds(alloc, dial, disk, archive, plan, channel.as_slice()) {
                Ok(()) => RelayEnd::Done,
                Err(stop) => RelayEnd::from(stop),
            }
        }
        Err(NoMemory) => RelayEnd::NoMemory,
    }
}

/// Pulls what an origin lists of the tracks of an archive's channel, round for round: in each it reads the manifest, asks for each
/// listed fragment that isn't kept yet, and keeps it ([MS-SSTR] 2.2.1 to 2.2.4). It pauses between two rounds. What is kept already is
/// neither asked for nor compared. What was kept before it ended stays.
pub fn relay<C: Dial, D: Disk>(
    alloc: Global,
    dial: &mut C,
    disk: &mut D,
    archive: &mut Archive,
    plan: &PullPlan,
) -> RelayReport
    requires stands { (log : List Entry) × (channel : List Track) × Stands archive.old log None (D.seen.may_leave disk.old) × (channel_of log ≡ Some channel) }
    requires rounds { 0 < plan.now.rounds }
    requires tries { 0 < plan.now.tries }
    // Each fragment was read of an answer to a request for its address, by the Url that the manifest of its round lists.
    ensures relayed { (log : List Entry) (channel : List Track) → Stands archive.old log None (D.seen.may_leave disk.old) → channel_of log ≡ Some channel
        → (p : Relayed D.seen C.log C.store C.later C.dial_faults C.chosen plan.now channel disk.old disk.new dial.old dial.new archive.old
        archive.new log result.end) × (result.kept ≡ length (kept_in p.rounds ++ p.added))
        × AllByRecursion (KeepsListed channel (log ++ keeps_of (kept_in p.rounds ++ p.added))) p.rounds }
    // Over an origin that keeps a log, a crash at any moment leaves a store whose Keeps that log keeps, where it kept those from before.
    ensures below { (log : List Entry) (channel up : List Track) (first last : List Entry) (before made : List Exchange)
        → Stands archive.old log None (D.seen.may_leave disk.old)
        → channel_of log ≡ Some channel → C.log dial.old ≡ Some before → C.log dial.new ≡ Some (before ++ made) → Serves plan.now.place up first last made
        → Below log first → IsSome (D.seen.view disk.old).contents → Throughout D.seen disk.old disk.new (LeavesBelow last) }
    // And where it answers each request, and its channel has the tracks, no answer of it ends the call.
    ensures well { (log : List Entry) (channel up : List Track) (first last : List Entry) (before made : List Exchange)
        → Stands archive.old log None (D.seen.may_leave disk.old)
        → channel_of log ≡ Some channel → C.log dial.old ≡ Some before → C.log dial.new ≡ Some (before ++ made) → Serves plan.now.place up first last made
        → Below log first → IsPatient made → AllByRecursion (IsOffered up) channel → EndsWell result.end }
    ensures fault { result.end ≡ ends.DiskFault → Rose (D.seen.view disk.old).disk_faults (D.seen.view disk.new).disk_faults }
    ensures lost { Contains (carried result.end) miss.Lost → exchanges.Rose (C.dial_faults dial.old) (C.dial_faults dial.new) }
    // It stands for some log again, whichever it stood for.
    ensures stands { (log : List Entry) × (doubt : Option Entry) × Stands archive.new log doubt (D.seen.may_leave disk.new) }
    ensures asks { (made : List Exchange) × Asks C.log C.store C.later C.dial_faults C.chosen dial.old dial.new made }
    ensures disk_alone { DiskAlone (D.seen.view disk.old) (D.seen.view disk.new) }
{
    let before = archive.len();
    let end = relay_all(alloc, dial, disk, archive, plan);
    RelayReport {
        kept: archive.len().saturating_sub(before),
        end,
    }
}
