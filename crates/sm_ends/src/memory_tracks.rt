//! Tracks in memory.
ghost use Rattle.std.specs.Prelude.{◌≡◌, ◌≢◌, ◌++◌, ◌⊎◌, ℕ, [], false, Some, IsTrue, IfOk, nat_eq, position, IsErr, OnOk, OnErr, Contains};
ghost use Rattle.std.specs.Io.KnownBytes.{Appends, Keeps};
ghost use Rattle.sm_ends.specs.Faults.{HasCause};
ghost use Rattle.sm_ends.specs.Memory.{one_more};
ghost use Rattle.sm_ends.specs.Moves.{AppendsFront};
ghost use Rattle.sm_ends.specs.TracksHeld.{held_at};

use crate::calls::is_to_fail;
use crate::{Calls, Failed, Tracks};
use sm_model::NoMemory;
use std::alloc::Global;
use std::marker::Model;

// The bytes of one track.
#[derive(Drop)]
struct TrackBytes {
    track: u32,
    bytes: Vec<u8>,
}

impl Model for TrackBytes {
    ghost use Rattle.sm_ends.specs.TracksHeld.{TrackHeld};

    ghost Value = { TrackHeld };

    ghost view = { λ t. record { track = t.track; bytes = t.bytes.items } };
}

impl TrackBytes {
    fn number(&self) -> u32
        ensures { result ≡ self.now.track }
    {
        self.track
    }

    fn add(&mut self, bytes: &[u8]) -> Result<(), NoMemory>
        ensures track { self.new.track ≡ self.old.track }
        ensures ok { OnOk result (self.new.bytes ≡ self.old.bytes ++ bytes.now) }
        ensures bad { OnErr result (self.new ≡ self.old) }
    {
        self.bytes.extend_from_slice(bytes)?;
        Ok(())
    }
}

/// Holds what is added to each track, in memory.
///
/// A call whose number is listed fails and adds nothing, and each other call adds its whole piece, unless memory runs
/// out: then it adds nothing, fails, and `starved` tells it.
#[derive(Drop)]
pub struct MemoryTracks {
    tracks: Vec<TrackBytes>,
    failing: Calls,
    calls: u64,
    faults: u64,
    starved: bool,
    alloc: Global,
}

impl Model for MemoryTracks {
    ghost use Rattle.sm_ends.specs.TracksHeld.{TracksState};

    ghost Value = { TracksState };

    ghost view = { λ s. record { tracks = s.tracks.items; failing = s.failing; calls = s.calls; faults = s.faults; starved = s.starved } };
}

// The bytes of the track of that number.
fn bytes_of(tracks: &[TrackBytes], track: u32) -> &[u8]
    ensures { result.now ≡ held_at tracks.now track }
{
    match tracks {
        [] => &[],
        [first, rest @ ..] => {
            if first.track == track {
                &first.bytes
            } else {
                bytes_of(rest, track)
            }
        }
    }
}

// The place of the track of that number.
fn place_of(tracks: &Vec<TrackBytes>, track: u32) -> Option<usize>
    ensures { result ≡ position (λ t. nat_eq t.track track) tracks.now.items }
{
    tracks.iter().position(|t| t.number() == track)
}

// A track that holds these bytes.
fn track_of(alloc: Global, track: u32, bytes: &[u8]) -> Result<TrackBytes, NoMemory>
    ensures { IfOk result (λ t. t ≡ record { track = track; bytes = bytes.now }) }
{
    Ok(TrackBytes {
        track,
        bytes: Vec::from_slice(alloc, bytes)?,
    })
}

// Adds to the track of that number, which begins here where there is none.
fn add(
    alloc: Global,
    tracks: &mut Vec<TrackBytes>,
    track: u32,
    bytes: &[u8],
) -> Result<(), NoMemory>
    ensures ok { OnOk result (held_at tracks.new.items track ≡ held_at tracks.old.items track ++ bytes.now) }
    ensures others { (k : ℕ) → k ≢ track → held_at tracks.new.items k ≡ held_at tracks.old.items k }
    ensures bad { OnErr result (tracks.new.items ≡ tracks.old.items) }
{
    match place_of(tracks, track) {
        Some(place) => tracks[place].add(bytes),
        None => {
            let begun = track_of(alloc, track, bytes)?;
            tracks.insert(0, begun)?;
            Ok(())
        }
    }
}

impl MemoryTracks {
    /// Empty tracks, with the numbers of the calls that fail.
    pub fn new(alloc: Global, failing: Calls) -> MemoryTracks
        ensures { result ≡ record { tracks = []; failing = failing; calls = 0; faults = 0; starved = false } }
    {
        MemoryTracks {
            tracks: Vec::new(alloc),
            failing,
            calls: 0,
            faults: 0,
            starved: false,
            alloc,
        }
    }

    /// The bytes that a track holds.
    pub fn held(&self, track: u32) -> &[u8]
        ensures { result.now ≡ held_at self.now.tracks track }
    {
        bytes_of(&self.tracks, track)
    }

    /// How often it has failed.
    pub fn faults(&self) -> u64
        ensures { result ≡ self.now.faults }
    {
        self.faults
    }

    /// Whether a call has failed for want of memory.
    pub fn starved(&self) -> bool
        ensures { result ≡ self.now.starved }
    {
        self.starved
    }
}

impl Tracks for MemoryTracks {
    ghost held = { λ s k. Some (held_at s.tracks k) };

    ghost faults = { λ s. s.faults };

    fn append(&mut self, track: u32, bytes: &[u8]) -> Result<(), Failed>
        ensures ok { OnOk result (Appends (Some (held_at self.old.tracks track)) (Some (held_at self.new.tracks track)) bytes.now) }
        ensures err { OnErr result (AppendsFront (Some (held_at self.old.tracks track)) (Some (held_at self.new.tracks track)) bytes.now) }
        ensures others { (k : ℕ) → k ≢ track → Keeps (Some (held_at self.old.tracks k)) (Some (held_at self.new.tracks k)) }
        ensures cause { HasCause self.old.faults self.new.faults result }

        ensures unadded { OnErr result (self.new.tracks ≡ self.old.tracks) }
        ensures calls { self.new.calls ≡ one_more self.old.calls }
        ensures kept { self.new.failing ≡ self.old.failing }
        ensures listed { Contains self.old.failing self.new.calls → IsErr result }
        ensures fails { OnErr result (Contains self.old.failing self.new.calls ⊎ IsTrue self.new.starved) }
        ensures stays { IsTrue self.old.starved → IsTrue self.new.starved }
    {
        self.calls = self.calls.saturating_add(1);
        if is_to_fail(&self.failing, self.calls) {
            self.faults = self.faults.saturating_add(1);
            return Err(Failed);
        }
        match add(self.alloc, &mut self.tracks, track, bytes) {
            Ok(()) => Ok(()),
            Err(_) => {
                self.starved = true;
                self.faults = self.faults.saturating_add(1);
                Err(Failed)
            }
        }
    }
}
