//! A rehearsal.
ghost use Rattle.std.specs.Prelude.{◌≡◌, ◌≤◌, ◌<◌, ◌*◌, ◌^◌, IfOk, OnOk, length};
ghost use Rattle.sm_world.specs.Deeds.{deeds_in};
ghost use Rattle.sm_world.specs.Encoders.{entries_after};
ghost use Rattle.sm_world.specs.Rehearsed.{Rehearsed};
ghost use Rattle.sm_world.specs.Rounds.{crashes, refusals};
ghost use Rattle.sm_world.specs.Stages.{Begins, HasEntries, HasPushed};
ghost use Rattle.sm_client.specs.Turns.{meant};

use crate::OriginDial;
use crate::client::place;
use crate::clients::{Clients, has_entries, play_all};
use crate::header::{header, name};
use crate::reading::entries_after;
use crate::stage::Stage;
use sm_archive::Limits;
use sm_ends::MemoryTracks;
use sm_model::NoMemory;
use sm_policy::Policy;
use sm_site::{MemorySite, Numbers, Script};
use std::alloc::Global;

/// What a rehearsal comes to.
#[derive(Clone, Copy, Debug, PartialEq, Eq)]
pub struct Summary {
    /// The fragments that the store keeps in the end.
    pub kept: u64,
    /// The fragments of pushes that were kept already.
    pub known: u64,
    /// The pushes that were refused for what is kept.
    pub refused: u64,
    /// How often the site crashed.
    pub crashes: u64,
    /// The exchanges of the clients whose reply was lost.
    pub lost: u64,
    /// Those of which half of the reply came.
    pub cut: u64,
    /// The fragments that the clients wrote.
    pub played: u64,
}

/// A rehearsal that was held: what it came to, the origin as it is now, and what each client wrote.
#[derive(Drop)]
pub struct Rehearsal {
    pub summary: Summary,
    pub dial: OriginDial<MemorySite>,
    pub first: MemoryTracks,
    pub second: MemoryTracks,
    pub third: MemoryTracks,
}

// The origin of an empty store.
fn stage(alloc: Global) -> Result<Stage, NoMemory>
    ensures { IfOk result Begins }
{
    let script = Script::from_vec(Vec::new(alloc));
    let none = Numbers::from_vec(Vec::new(alloc));
    let site = MemorySite::new(alloc, script, none, Numbers::from_vec(Vec::new(alloc)));
    let lost = Numbers::from_vec(Vec::new(alloc));
    let cut = Numbers::from_vec(Vec::new(alloc));
    let dial = OriginDial::new(alloc, site, Limits::standard(), lost, cut);
    Ok(Stage {
        alloc,
        dial,
        place: place(alloc)?,
        id: name(alloc, b"a")?,
        header: header(alloc)?,
        known: 0,
        refused: 0,
    })
}

// The rounds of a rehearsal, behind which the store has the channel and three fragments each.
fn push_all(stage: &mut Stage, number: u32, size: u64) -> Result<(), NoMemory>
    requires none_known { stage.old.known ≡ 0 }
    requires none_refused { stage.old.refused ≡ 0 }
    requires few { size ≤ 2000 }
    ensures pushed { OnOk result (HasPushed stage.old stage.new (deeds_in stage.old.header size number) (crashes size number) (refusals size number) (9 * size)) }
    ensures entries { OnOk result (0 < size → HasEntries stage.new.dial (entries_after size)) }
{
    stage.rounds(number, size)?;
    if size == 0 {
        return Ok(());
    }
    if !has_entries(&stage.dial, entries_after(size)) {
        return Err(NoMemory);
    }
    Ok(())
}

/// Holds a rehearsal: two encoders push to an origin in memory, so many rounds, while its disk stops and its site crashes; then three
/// clients play, each with one of the policies, in order: `video`, `video` and `audio`. Some of their exchanges are lost or cut, and
/// before the second the site crashes once more and what it keeps is read back. The number decides what happens, and nothing else does.
///
/// Anything but what is due is told as want of memory, since only that can bring it about.
pub fn rehearse(
    alloc: Global,
    number: u64,
    size: u64,
    policies: Vec<Box<dyn Policy>>,
) -> Result<Rehearsal, NoMemory>
    requires three { length policies.items ≡ 3 }
    requires number { number < 2 ^ 31 }
    requires size { size ≤ 2000 }
    ensures { IfOk result (Rehearsed (meant pick_after retired_after) number size policies.items) }
{
    let mut policies = policies;
    let Some(third) = policies.pop() else {
        return Err(NoMemory);
    };
    let Some(second) = policies.pop() else {
        return Err(NoMemory);
    };
    let Some(first) = policies.pop() else {
        return Err(NoMemory);
    };
    let mut stage = stage(alloc)?;
    push_all(&mut stage, number as u32, size)?;
    let Stage {
        mut dial,
        known,
        refused,
        ..
    } = stage;
    let Clients {
        first,
        second,
        third,
    } = play_all(alloc, &mut dial, first, second, third, size)?;
    if dial.starved() {
        return Err(NoMemory);
    }
    let summary = Summary {
        kept: 3 * size,
        known,
        refused,
        crashes: dial.crashes(),
        lost: first.lost + second.lost + third.lost,
        cut: first.cut + second.cut + third.cut,
        played: first.played + second.played + third.played,
    };
    Ok(Rehearsal {
        summary,
        dial,
        first: first.tracks,
        second: second.tracks,
        third: third.tracks,
    })
}
