//! The clients of a rehearsal, one after another.
ghost use Rattle.std.specs.Prelude.{◌≡◌, ◌≤◌, ◌⊎◌, IfOk, IsTrue, OnOk, codes};
ghost use Rattle.sm_world.specs.Clients.{HasPlayed, HasPlayedFirst, HavePlayed};
ghost use Rattle.sm_world.specs.Encoders.{entries_after};
ghost use Rattle.sm_world.specs.Stages.{HasEntries};
ghost use Rattle.sm_client.specs.Turns.{meant};

use crate::OriginDial;
use crate::client::{Client, play_stream};
use crate::reading::entries_after;
use sm_model::NoMemory;
use sm_policy::Policy;
use sm_site::MemorySite;
use std::alloc::Global;

/// What came of the three clients.
#[derive(Drop)]
pub struct Clients {
    pub first: Client,
    pub second: Client,
    pub third: Client,
}

// Whether the store is open and has so many entries.
pub(crate) fn has_entries(dial: &OriginDial<MemorySite>, entries: u64) -> bool
    ensures { IsTrue result → HasEntries dial.now entries }
{
    match dial.entries() {
        Some(found) => found == entries,
        None => false,
    }
}

// A client, behind which the store has as many entries as before.
fn client(
    alloc: Global,
    dial: &mut OriginDial<MemorySite>,
    policy: Box<dyn Policy>,
    stream: &[u8],
    size: u64,
) -> Result<Client, NoMemory>
    requires few { size ≤ 2000 }
    requires stream { (stream.now ≡ codes "video") ⊎ (stream.now ≡ codes "audio") }
    ensures played { IfOk result (HasPlayed (meant pick_after retired_after) policy stream.now size dial.old dial.new) }
    ensures entries { OnOk result (HasEntries dial.new (entries_after size)) }
{
    let client = play_stream(alloc, dial, policy, stream, size)?;
    if client.tracks.starved() {
        return Err(NoMemory);
    }
    if !has_entries(dial, entries_after(size)) {
        return Err(NoMemory);
    }
    Ok(client)
}

// The first client; then the site crashes, and what it keeps is read back.
fn play_first(
    alloc: Global,
    dial: &mut OriginDial<MemorySite>,
    policy: Box<dyn Policy>,
    size: u64,
) -> Result<Client, NoMemory>
    requires few { size ≤ 2000 }
    ensures { IfOk result (HasPlayedFirst (meant pick_after retired_after) policy size dial.old dial.new) }
{
    let client = client(alloc, dial, policy, b"video", size)?;
    dial.crash_by(0);
    if !dial.reads_back(size)? {
        return Err(NoMemory);
    }
    Ok(client)
}

// Plays the streams of the clients, each with a policy of its own: pictures, pictures and sound. Before the second the site crashes, and what
// it keeps is read back.
pub(crate) fn play_all(
    alloc: Global,
    dial: &mut OriginDial<MemorySite>,
    first: Box<dyn Policy>,
    second: Box<dyn Policy>,
    third: Box<dyn Policy>,
    size: u64,
) -> Result<Clients, NoMemory>
    requires few { size ≤ 2000 }
    ensures { IfOk result (HavePlayed (meant pick_after retired_after) first second third size dial.old dial.new) }
{
    let first = play_first(alloc, dial, first, size)?;
    let second = client(alloc, dial, second, b"video", size)?;
    let third = client(alloc, dial, third, b"audio", size)?;
    Ok(Clients {
        first,
        second,
        third,
    })
}
