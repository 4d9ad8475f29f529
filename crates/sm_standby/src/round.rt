//! Rounds: a manifest, and then all that it leads to.
ghost use Rattle.std.specs.Prelude.{◌≡◌, ◌<◌, ◌≤◌, ℕ, List, [], None, length, OnOk, IfErr};
ghost use Rattle.sm_model.specs.declared.entry.Entry.{Entry};
ghost use Rattle.sm_archive.specs.Stands.{Stands};
ghost use Rattle.sm_standby.specs.Waiting.{AreOpen, due};
ghost use Rattle.sm_standby.specs.Followed.{at, Follows, Ends};
ghost use Rattle.sm_standby.specs.Rounds.{addresses_of, Rounds, RoundEnds, Called};

use crate::FollowEnd;
use crate::again::take_held;
use crate::following::follow_all;
use crate::held::Held;
use crate::listed::candidates_of;
use sm_archive::Archive;
use sm_fetch::Dial;
use sm_manin::Listing;
use sm_model::Track;
use sm_pull::{Manifest, PullPlan, first_missing, read_listing, rest};
use sm_site::Disk;
use std::alloc::Global;

// What waits for the next place, and then all candidates of a manifest.
fn follow_listing<C: Dial, D: Disk>(
    alloc: Global,
    dial: &mut C,
    disk: &mut D,
    archive: &mut Archive,
    held: &mut Held,
    plan: &PullPlan,
    channel: &[Track],
    listing: &Listing,
) -> Result<(), FollowEnd>
    requires stands { (log : List Entry) × Stands archive.old log None (D.seen.may_leave disk.old) × AreOpen log held.old }
    ensures ok { OnOk result ((log : List Entry) → Stands archive.old log None (D.seen.may_leave disk.old) → AreOpen log held.old
        → (f : Follows D.seen C.log C.store C.later C.dial_faults C.chosen disk.old disk.new dial.old dial.new plan.now channel.now listing.now
        archive.old archive.new (at log held.old (addresses_of channel.now listing.now)) held.new [])
        × (due (length f.log) held.new ≡ None)) }
    ensures err { IfErr result (λ end. (log : List Entry) → Stands archive.old log None (D.seen.may_leave disk.old) → AreOpen log held.old
        → Ends D.seen C.log C.store C.later C.dial_faults C.chosen disk.old disk.new dial.old dial.new plan.now channel.now listing.now
        archive.old archive.new (at log held.old (addresses_of channel.now listing.now)) end) }
{
    let all = candidates_of(alloc, channel, listing)?;
    take_held(alloc, dial, disk, archive, held, plan, channel, listing)?;
    follow_all(
        alloc, dial, disk, archive, held, plan, channel, listing, &all,
    )
}

// One round.
fn follow_round<C: Dial, D: Disk>(
    alloc: Global,
    dial: &mut C,
    disk: &mut D,
    archive: &mut Archive,
    held: &mut Held,
    plan: &PullPlan,
    channel: &[Track],
) -> Result<(), FollowEnd>
    requires few { length channel.now ≤ 64 }
    requires stands { (log : List Entry) × Stands archive.old log None (D.seen.may_leave disk.old) × AreOpen log held.old }
    ensures ok { OnOk result ((log : List Entry) → Stands archive.old log None (D.seen.may_leave disk.old) → AreOpen log held.old
        → Rounds D.seen C.log C.store C.later C.dial_faults C.chosen disk.old disk.new dial.old dial.new plan.now channel.now
        archive.old archive.new log held.old held.new 1) }
    ensures err { IfErr result (λ end. (log : List Entry) → Stands archive.old log None (D.seen.may_leave disk.old) → AreOpen log held.old
        → RoundEnds D.seen C.log C.store C.later C.dial_faults C.chosen disk.old disk.new dial.old dial.new plan.now channel.now
        archive.old archive.new log held.old end) }
{
    match read_listing(alloc, dial, &plan.place, plan.tries) {
        Manifest::NoMemory => Err(FollowEnd::NoMemory),
        Manifest::GaveUp(outcomes) => Err(FollowEnd::NoManifest { outcomes }),
        Manifest::Read(listing) => match first_missing(channel, &listing) {
            Some(index) => Err(FollowEnd::NoTrack {
                index: index as u32,
            }),
            None => follow_listing(alloc, dial, disk, archive, held, plan, channel, &listing),
        },
    }
}

// One round, a while after the last one.
fn follow_next<C: Dial, D: Disk>(
    alloc: Global,
    dial: &mut C,
    disk: &mut D,
    archive: &mut Archive,
    held: &mut Held,
    plan: &PullPlan,
    channel: &[Track],
    round: u64,
) -> Result<(), FollowEnd>
    requires few { length channel.now ≤ 64 }
    requires stands { (log : List Entry) × Stands archive.old log None (D.seen.may_leave disk.old) × AreOpen log held.old }
    ensures ok { OnOk result ((log : List Entry) → Stands archive.old log None (D.seen.may_leave disk.old) → AreOpen log held.old
        → Rounds D.seen C.log C.store C.later C.dial_faults C.chosen disk.old disk.new dial.old dial.new plan.now channel.now
        archive.old archive.new log held.old held.new 1) }
    ensures err { IfErr result (λ end. (log : List Entry) → Stands archive.old log None (D.seen.may_leave disk.old) → AreOpen log held.old
        → RoundEnds D.seen C.log C.store C.later C.dial_faults C.chosen disk.old disk.new dial.old dial.new plan.now channel.now
        archive.old archive.new log held.old end) }
{
    rest(dial, round > 0);
    follow_round(alloc, dial, disk, archive, held, plan, channel)
}

// As many rounds as the plan has, from an archive in which nothing waits.
fn follow_rounds<C: Dial, D: Disk>(
    alloc: Global,
    dial: &mut C,
    disk: &mut D,
    archive: &mut Archive,
    held: &mut Held,
    plan: &PullPlan,
    channel: &[Track],
) -> Result<(), FollowEnd>
    requires few { length channel.now ≤ 64 }
    requires empty { held.old ≡ [] }
    requires stands { (log : List Entry) × Stands archive.old log None (D.seen.may_leave disk.old) }
    ensures ok { OnOk result ((log : List Entry) → Stands archive.old log None (D.seen.may_leave disk.old)
        → Rounds D.seen C.log C.store C.later C.dial_faults C.chosen disk.old disk.new dial.old dial.new plan.now channel.now
        archive.old archive.new log [] held.new plan.now.rounds) }
    ensures err { IfErr result (λ end. (log : List Entry) → Stands archive.old log None (D.seen.may_leave disk.old)
        → Called D.seen C.log C.store C.later C.dial_faults C.chosen disk.old disk.new dial.old dial.new plan.now channel.now
        archive.old archive.new log end) }
{
    for round in 0..plan.rounds {
        follow_next(alloc, dial, disk, archive, held, plan, channel, round)?;
    }
    Ok(())
}

// As many rounds as the plan has, and how they end.
pub(crate) fn follow_channel<C: Dial, D: Disk>(
    alloc: Global,
    dial: &mut C,
    disk: &mut D,
    archive: &mut Archive,
    plan: &PullPlan,
    channel: &[Track],
) -> FollowEnd
    requires few { length channel.now ≤ 64 }
    requires stands { (log : List Entry) × Stands archive.old log None (D.seen.may_leave disk.old) }
    ensures { (log : List Entry) → Stands archive.old log None (D.seen.may_leave disk.old)
        → Called D.seen C.log C.store C.later C.dial_faults C.chosen disk.old disk.new dial.old dial.new plan.now channel.now
        archive.old archive.new log result }
{
    let mut held = Held::new(alloc);
    match follow_rounds(alloc, dial, disk, archive, &mut held, plan, channel) {
        Err(end) => end,
        Ok(()) => match held.least() {
            None => FollowEnd::Done,
            Some(next) => FollowEnd::Gap {
                place: archive.len(),
                next,
            },
        },
    }
}
