//! The parts of a catalog, made, copied and given room.
ghost use Rattle.std.specs.Prelude.{◌≡◌, ◌≤◌, ◌<◌, ℕ, [], true, All, map, length, IfOk, OnOk, slice_index_or};
ghost use Rattle.sm_model.specs.Same.{is_same};
ghost use Rattle.sm_log.specs.Adds.{names_of};
ghost use Rattle.sm_timeline.specs.Lines.{Entries};
ghost use Rattle.sm_catalog.specs.Content.{IsFresh, AreCopies, HaveMoreRoom};

use crate::lookup::stream_place;
use crate::stream::Stream;
use sm_log::count_tracks;
use sm_model::{Name, NoMemory, Track};
use sm_timeline::ByTime;
use std::alloc::Global;

/// So many lists of places, all empty.
pub fn empty_places(alloc: Global, count: usize) -> Result<Vec<ByTime>, NoMemory>
    ensures as_many { IfOk result (λ v. length v.items ≡ count) }
    ensures empty { IfOk result (λ v. All (λ (e : Entries). e.entries ≡ []) v.items) }
{
    let mut kept = Vec::with_capacity(alloc, count)?;
    for _track in 0..count {
        kept.push(ByTime::new(alloc))?;
    }
    Ok(kept)
}

// A stream of a channel, without times.
fn new_stream(alloc: Global, channel: &[Track], name: &Name) -> Result<Stream, NoMemory>
    requires { length channel.now ≤ 64 }
    ensures name { IfOk result (λ l. l.name ≡ name.now) }
    ensures fresh { IfOk result (IsFresh channel.now) }
{
    let count = count_tracks(channel, name.as_bytes());
    Ok(Stream::new(alloc, name.copy(alloc)?, count as u32))
}

/// The streams of a channel, without times, in the order in which each name first stands.
pub fn streams_of(alloc: Global, channel: &[Track]) -> Result<Vec<Stream>, NoMemory>
    requires { length channel.now ≤ 64 }
    ensures names { IfOk result (λ v. map (λ l. l.name) v.items ≡ names_of channel.now) }
    ensures fresh { IfOk result (λ v. All (IsFresh channel.now) v.items) }
{
    let mut streams = Vec::new(alloc);
    for track in channel {
        match stream_place(&streams, track.name.as_bytes()) {
            Some(_) => {}
            None => streams.push(new_stream(alloc, channel, &track.name)?)?,
        }
    }
    Ok(streams)
}

/// Equal lists of places.
pub fn copy_places(alloc: Global, kept: &[ByTime]) -> Result<Vec<ByTime>, NoMemory>
    ensures { IfOk result (λ v. map (λ (e : Entries). e.entries) v.items ≡ map (λ (e : Entries). e.entries) kept.now) }
{
    let mut copies = Vec::with_capacity(alloc, kept.len())?;
    for places in kept {
        copies.push(places.copy(alloc)?)?;
    }
    Ok(copies)
}

/// Equal streams, but for the room.
pub fn copy_streams(alloc: Global, streams: &[Stream]) -> Result<Vec<Stream>, NoMemory>
    ensures { IfOk result (λ v. AreCopies streams.now v.items) }
{
    let mut copies = Vec::with_capacity(alloc, streams.len())?;
    for stream in streams {
        copies.push(stream.copy(alloc)?)?;
    }
    Ok(copies)
}

/// Makes room for at least two more places of each track of that stream.
pub fn reserve_places(
    channel: &[Track],
    kept: &mut Vec<ByTime>,
    name: &[u8],
) -> Result<(), NoMemory>
    requires { length kept.old.items ≡ length channel.now }
    ensures more { HaveMoreRoom kept.old.items kept.new.items }
    ensures ok { OnOk result ((k : ℕ) (d : Entries) (t : Track) → k < length channel.now → is_same (slice_index_or channel.now k t).name name.now ≡ true
        → 2 ≤ (slice_index_or kept.new.items k d).room) }
{
    for i in 0..kept.len() {
        if channel[i].name.as_bytes() == name {
            kept[i].reserve()?;
        }
    }
    Ok(())
}
