//! What waited, asked for again once its place comes.
ghost use Rattle.std.specs.Prelude.{◌≡◌, ◌<◌, List, None, Ok, true, false, length, IfOk, OnOk, IfErr};
ghost use Rattle.sm_model.specs.declared.address.Address.{Address};
ghost use Rattle.sm_model.specs.declared.entry.Entry.{Entry};
ghost use Rattle.sm_archive.specs.Stands.{Stands};
ghost use Rattle.sm_standby.specs.Waiting.{AreOpen, due};
ghost use Rattle.sm_standby.specs.Followed.{at, Follows, Ends};

use crate::FollowEnd;
use crate::held::Held;
use crate::listed::url_of;
use crate::placing::place_one;
use sm_archive::Archive;
use sm_fetch::Dial;
use sm_manin::Listing;
use sm_model::Track;
use sm_pull::PullPlan;
use sm_site::Disk;
use std::alloc::Global;

// Asks again for what waits for the next place, if anything does, and says whether it did.
fn take_one<C: Dial, D: Disk>(
    alloc: Global,
    dial: &mut C,
    disk: &mut D,
    archive: &mut Archive,
    held: &mut Held,
    plan: &PullPlan,
    channel: &[Track],
    listing: &Listing,
) -> Result<bool, FollowEnd>
    requires stands { (log : List Entry) × Stands archive.old log None (D.seen.may_leave disk.old) × AreOpen log held.old }
    ensures ok { OnOk result ((log : List Entry) (rest : List Address) → Stands archive.old log None (D.seen.may_leave disk.old) → AreOpen log held.old
        → Follows D.seen C.log C.store C.later C.dial_faults C.chosen disk.old disk.new dial.old dial.new plan.now channel.now listing.now
        archive.old archive.new (at log held.old rest) held.new rest) }
    ensures fewer { result ≡ Ok true → length held.new < length held.old }
    ensures nothing { result ≡ Ok false → (log : List Entry) → Stands archive.new log None (D.seen.may_leave disk.new) → due (length log) held.new ≡ None }
    ensures err { IfErr result (λ end. (log : List Entry) (rest : List Address) → Stands archive.old log None (D.seen.may_leave disk.old) → AreOpen log held.old
        → Ends D.seen C.log C.store C.later C.dial_faults C.chosen disk.old disk.new dial.old dial.new plan.now channel.now listing.now
        archive.old archive.new (at log held.old rest) end) }
{
    match held.take(archive.len()) {
        None => Ok(false),
        Some(later) => {
            let url = url_of(listing, &later.address);
            place_one(
                alloc,
                dial,
                disk,
                archive,
                plan,
                channel,
                url,
                later.address,
            )?;
            Ok(true)
        }
    }
}

// Asks again for what waits, as long as its place is the next one.
pub(crate) fn take_held<C: Dial, D: Disk>(
    alloc: Global,
    dial: &mut C,
    disk: &mut D,
    archive: &mut Archive,
    held: &mut Held,
    plan: &PullPlan,
    channel: &[Track],
    listing: &Listing,
) -> Result<(), FollowEnd>
    requires stands { (log : List Entry) × Stands archive.old log None (D.seen.may_leave disk.old) × AreOpen log held.old }
    ensures ok { OnOk result ((log : List Entry) (rest : List Address) → Stands archive.old log None (D.seen.may_leave disk.old) → AreOpen log held.old
        → Follows D.seen C.log C.store C.later C.dial_faults C.chosen disk.old disk.new dial.old dial.new plan.now channel.now listing.now
        archive.old archive.new (at log held.old rest) held.new rest) }
    ensures nothing { OnOk result ((log : List Entry) → Stands archive.new log None (D.seen.may_leave disk.new) → due (length log) held.new ≡ None) }
    ensures err { IfErr result (λ end. (log : List Entry) (rest : List Address) → Stands archive.old log None (D.seen.may_leave disk.old) → AreOpen log held.old
        → Ends D.seen C.log C.store C.later C.dial_faults C.chosen disk.old disk.new dial.old dial.new plan.now channel.now listing.now
        archive.old archive.new (at log held.old rest) end) }
{
    loop {
        let took = take_one(alloc, dial, disk, archive, held, plan, channel, listing)?;
        if !took {
            return Ok(());
        }
    }
}
