//! Candidates, one after another.
ghost use Rattle.std.specs.Prelude.{◌≡◌, ◌||◌, [], ◌∷◌, ◌++◌, ℕ, List, Option, None, length, is_some, OnOk, IfErr};
ghost use Rattle.sm_model.specs.declared.address.Address.{Address};
ghost use Rattle.sm_model.specs.declared.entry.Entry.{Entry};
ghost use Rattle.sm_log.specs.Logs.{kept_at};
ghost use Rattle.sm_archive.specs.Stands.{Keeps, Stands};
ghost use Rattle.sm_standby.specs.Candidates.{addresses_by, row, longest};
ghost use Rattle.sm_standby.specs.Waiting.{AreOpen, due, waits};
ghost use Rattle.sm_standby.specs.Followed.{at, Follows, Ends};

use crate::FollowEnd;
use crate::again::take_held;
use crate::candidates::{StreamCandidates, longest, row};
use crate::held::Held;
use crate::listed::url_of;
use crate::placing::{Step, place_one};
use sm_archive::Archive;
use sm_fetch::Dial;
use sm_manin::Listing;
use sm_model::{Address, Track};
use sm_pull::{PullPlan, is_kept};
use sm_site::Disk;
use std::alloc::Global;

// Whether something is kept at an address, or it waits.
fn is_there(archive: &Archive, held: &Held, address: &Address) -> bool
    ensures { (bodies : List (List ℕ)) (body : Option (List ℕ)) (log : List Entry) (doubt : Option Entry) → Keeps archive.now bodies body log doubt
        → result ≡ (is_some (kept_at log address.now) || waits address.now held.now) }
{
    is_kept(archive, address) || held.has(address)
}

// One candidate, and what waited for the places behind it.
fn follow_one<C: Dial, D: Disk>(
    alloc: Global,
    dial: &mut C,
    disk: &mut D,
    archive: &mut Archive,
    held: &mut Held,
    plan: &PullPlan,
    channel: &[Track],
    listing: &Listing,
    address: &Address,
) -> Result<(), FollowEnd>
    requires stands { (log : List Entry) × Stands archive.old log None (D.seen.may_leave disk.old) × AreOpen log held.old × (due (length log) held.old ≡ None) }
    ensures ok { OnOk result ((log : List Entry) (more : List Address) → Stands archive.old log None (D.seen.may_leave disk.old) → AreOpen log held.old
        → due (length log) held.old ≡ None
        → (f : Follows D.seen C.log C.store C.later C.dial_faults C.chosen disk.old disk.new dial.old dial.new plan.now channel.now listing.now
        archive.old archive.new (at log held.old (address.now ∷ more)) held.new more) × (due (length f.log) held.new ≡ None)) }
    ensures err { IfErr result (λ end. (log : List Entry) (more : List Address) → Stands archive.old log None (D.seen.may_leave disk.old) → AreOpen log held.old
        → due (length log) held.old ≡ None
        → Ends D.seen C.log C.store C.later C.dial_faults C.chosen disk.old disk.new dial.old dial.new plan.now channel.now listing.now
        archive.old archive.new (at log held.old (address.now ∷ more)) end) }
{
    if is_there(archive, held, address) {
        return Ok(());
    }
    let copy = address.copy(alloc)?;
    let url = url_of(listing, address);
    let step = place_one(alloc, dial, disk, archive, plan, channel, url, copy)?;
    match step {
        Step::Passed => Ok(()),
        Step::Later(place, later) => {
            held.add(place, later)?;
            Ok(())
        }
        Step::Kept => take_held(alloc, dial, disk, archive, held, plan, channel, listing),
    }
}

// The candidates of one row, which others come behind.
fn follow_row<C: Dial, D: Disk>(
    alloc: Global,
    dial: &mut C,
    disk: &mut D,
    archive: &mut Archive,
    held: &mut Held,
    plan: &PullPlan,
    channel: &[Track],
    listing: &Listing,
    addresses: &[Address],
) -> Result<(), FollowEnd>
    requires stands { (log : List Entry) × Stands archive.old log None (D.seen.may_leave disk.old) × AreOpen log held.old × (due (length log) held.old ≡ None) }
    ensures ok { OnOk result ((log : List Entry) (more : List Address) → Stands archive.old log None (D.seen.may_leave disk.old) → AreOpen log held.old
        → due (length log) held.old ≡ None
        → (f : Follows D.seen C.log C.store C.later C.dial_faults C.chosen disk.old disk.new dial.old dial.new plan.now channel.now listing.now
        archive.old archive.new (at log held.old (addresses.now ++ more)) held.new more) × (due (length f.log) held.new ≡ None)) }
    ensures err { IfErr result (λ end. (log : List Entry) (more : List Address) → Stands archive.old log None (D.seen.may_leave disk.old) → AreOpen log held.old
        → due (length log) held.old ≡ None
        → Ends D.seen C.log C.store C.later C.dial_faults C.chosen disk.old disk.new dial.old dial.new plan.now channel.now listing.now
        archive.old archive.new (at log held.old (addresses.now ++ more)) end) }
{
    for address in addresses {
        follow_one(
            alloc, dial, disk, archive, held, plan, channel, listing, address,
        )?;
    }
    Ok(())
}

// The row of that place, if there is memory for it.
fn follow_place<C: Dial, D: Disk>(
    alloc: Global,
    dial: &mut C,
    disk: &mut D,
    archive: &mut Archive,
    held: &mut Held,
    plan: &PullPlan,
    channel: &[Track],
    listing: &Listing,
    all: &[StreamCandidates],
    place: usize,
) -> Result<(), FollowEnd>
    requires stands { (log : List Entry) × Stands archive.old log None (D.seen.may_leave disk.old) × AreOpen log held.old × (due (length log) held.old ≡ None) }
    ensures ok { OnOk result ((log : List Entry) (more : List Address) → Stands archive.old log None (D.seen.may_leave disk.old) → AreOpen log held.old
        → due (length log) held.old ≡ None
        → (f : Follows D.seen C.log C.store C.later C.dial_faults C.chosen disk.old disk.new dial.old dial.new plan.now channel.now listing.now
        archive.old archive.new (at log held.old (row channel.now place all.now ++ more)) held.new more)
        × (due (length f.log) held.new ≡ None)) }
    ensures err { IfErr result (λ end. (log : List Entry) (more : List Address) → Stands archive.old log None (D.seen.may_leave disk.old) → AreOpen log held.old
        → due (length log) held.old ≡ None
        → Ends D.seen C.log C.store C.later C.dial_faults C.chosen disk.old disk.new dial.old dial.new plan.now channel.now listing.now
        archive.old archive.new (at log held.old (row channel.now place all.now ++ more)) end) }
{
    let addresses = row(alloc, channel, place, all)?;
    follow_row(
        alloc, dial, disk, archive, held, plan, channel, listing, &addresses,
    )
}

// The first candidates of all streams, then the second ones, and so on.
pub(crate) fn follow_all<C: Dial, D: Disk>(
    alloc: Global,
    dial: &mut C,
    disk: &mut D,
    archive: &mut Archive,
    held: &mut Held,
    plan: &PullPlan,
    channel: &[Track],
    listing: &Listing,
    all: &[StreamCandidates],
) -> Result<(), FollowEnd>
    requires stands { (log : List Entry) × Stands archive.old log None (D.seen.may_leave disk.old) × AreOpen log held.old × (due (length log) held.old ≡ None) }
    ensures ok { OnOk result ((log : List Entry) → Stands archive.old log None (D.seen.may_leave disk.old) → AreOpen log held.old
        → due (length log) held.old ≡ None
        → (f : Follows D.seen C.log C.store C.later C.dial_faults C.chosen disk.old disk.new dial.old dial.new plan.now channel.now listing.now
        archive.old archive.new (at log held.old (addresses_by channel.now all.now)) held.new [])
        × (due (length f.log) held.new ≡ None)) }
    ensures err { IfErr result (λ end. (log : List Entry) → Stands archive.old log None (D.seen.may_leave disk.old) → AreOpen log held.old
        → due (length log) held.old ≡ None
        → Ends D.seen C.log C.store C.later C.dial_faults C.chosen disk.old disk.new dial.old dial.new plan.now channel.now listing.now
        archive.old archive.new (at log held.old (addresses_by channel.now all.now)) end) }
{
    for place in 0..longest(all) {
        follow_place(
            alloc, dial, disk, archive, held, plan, channel, listing, all, place,
        )?;
    }
    Ok(())
}
