//! One stream of a catalog.
ghost use Rattle.std.specs.Prelude.{◌≡◌, ◌≤◌, ◌+◌, ◌-◌, ◌==◌, ℕ, [], IfOk, IfSome, OnOk, OnErr, max, cond, ◌⊎◌, if◌then◌else◌, Option, Some, None, slice_get, length};
ghost use Rattle.sm_log.specs.declared.verdict.Decision.TheVariants as decision;
ghost use Rattle.sm_log.specs.Times.{entry_at, with_entry, decision, IsSpan};
ghost use Rattle.sm_log.specs.Adds.{behind};
ghost use Rattle.sm_timeline.specs.Lines.{more, count_at};

use sm_log::Decision;
use sm_model::{Name, NoMemory};
use sm_timeline::{ByTime, Timeline};
use std::alloc::Global;
use std::marker::Model;

/// The times of one stream and those of them that are listed.
#[derive(Debug, Drop)]
pub struct Stream {
    name: Name,
    tracks: u32,
    timeline: Timeline,
    listed: ByTime,
    spare: usize,
}

impl Model for Stream {
    ghost use Rattle.std.specs.Prelude.{min};
    ghost use Rattle.sm_catalog.specs.Content.{Lane, IsLaneInside};

    ghost Value = { Lane };

    ghost view = { λ s. record {
      name = s.name;
      tracks = s.tracks;
      times = s.timeline.times;
      counts = s.timeline.counts;
      listed = s.listed.entries;
      room = min s.timeline.spare s.listed.room;
      spare = s.spare;
    } };

    ghost invariant = { λ s. IsLaneInside s.spare (min s.timeline.spare s.listed.room) s.listed.entries };
}

impl Stream {
    /// A stream of so many tracks, without times.
    pub fn new(alloc: Global, name: Name, tracks: u32) -> Stream
        ensures name { result.name ≡ name }
        ensures tracks { result.tracks ≡ tracks }
        ensures times { result.times ≡ [] }
        ensures counts { result.counts ≡ [] }
        ensures listed { result.listed ≡ [] }
        ensures spare { result.spare ≡ 0 }
    {
        Stream {
            name,
            tracks,
            timeline: Timeline::new(alloc),
            listed: ByTime::new(alloc),
            spare: 0,
        }
    }

    pub fn name(&self) -> &[u8]
        ensures { result.now ≡ self.now.name }
    {
        self.name.as_bytes()
    }

    pub fn spare(&self) -> usize
        ensures spare { result ≡ self.now.spare }
        ensures room { self.now.spare ≤ self.now.room }
    {
        let _ = &self.listed;
        self.spare
    }

    pub fn decide(&self, time: u64, duration: u64) -> Decision
        ensures { result ≡ decision self.now.times time duration }
    {
        self.timeline.decide(time, duration)
    }

    /// The times, lent.
    pub fn times(&self) -> &[(u64, u64)]
        ensures { result.now ≡ self.now.times }
    {
        self.timeline.times()
    }

    /// The duration of the time that starts there.
    pub fn duration(&self, time: u64) -> Option<u64>
        ensures duration { result ≡ entry_at time self.now.times }
        ensures span { IfSome result (λ duration. IsSpan (time, duration)) }
    {
        self.timeline.duration(time)
    }

    /// The listed times, lent.
    pub fn listed(&self) -> &[(u64, u64)]
        ensures { result.now ≡ self.now.listed }
    {
        self.listed.as_slice()
    }

    // The duration of the listed time that starts there.
    fn listed_at(&self, time: u64) -> Option<u64>
        ensures duration { result ≡ entry_at time self.now.listed }
        ensures span { IfSome result (λ duration. IsSpan (time, duration)) }
    {
        self.listed.get(time)
    }

    /// The first, or the second, of up to two listed times behind the one that starts there, each of which starts where the one
    /// before it ends.
    pub fn ahead(&self, time: u64, index: u32) -> Option<(u64, u64)>
        ensures { result ≡ slice_get (behind self.now.listed time (entry_at time self.now.times)) index }
    {
        let duration = self.duration(time)?;
        let start = time + duration;
        let first = self.listed_at(start)?;
        if index == 0 {
            return Some((start, first));
        }
        let next = start + first;
        let second = self.listed_at(next)?;
        if index == 1 {
            Some((next, second))
        } else {
            None
        }
    }

    /// Makes room for at least two fragments more, and counts it as spare. It needs that the catalog has that room elsewhere.
    pub fn reserve(&mut self) -> Result<(), NoMemory>
        ensures name { self.new.name ≡ self.old.name }
        ensures tracks { self.new.tracks ≡ self.old.tracks }
        ensures times { self.new.times ≡ self.old.times }
        ensures counts { self.new.counts ≡ self.old.counts }
        ensures listed { self.new.listed ≡ self.old.listed }
        ensures ok { OnOk result (self.new.spare ≡ max self.old.spare 2) }
        ensures err { OnErr result (self.new.spare ≡ self.old.spare) }
        ensures backed { self.new.spare ≤ self.new.room }
    {
        self.timeline.reserve()?;
        self.listed.reserve()?;
        self.spare = self.spare.max(2);
        Ok(())
    }

    /// Adds a fragment. The time is listed once as many fragments start there as the stream has tracks.
    pub fn add(&mut self, time: u64, duration: u64)
        requires decision { (decision self.old.times time duration ≡ decision.New) ⊎ (decision self.old.times time duration ≡ decision.There) }
        requires spare { 1 ≤ self.old.spare }
        requires span { IsSpan (time, duration) }
        ensures name { self.new.name ≡ self.old.name }
        ensures tracks { self.new.tracks ≡ self.old.tracks }
        ensures times { self.new.times ≡ with_entry time duration self.old.times }
        ensures count { (start : ℕ) → count_at start self.new.times self.new.counts ≡
            (if time == start then more (count_at time self.old.times self.old.counts) else count_at start self.old.times self.old.counts) }
        ensures listed { self.new.listed ≡ (if count_at time self.new.times self.new.counts == self.old.tracks
            then with_entry time duration self.old.listed else self.old.listed) }
        ensures spare { self.new.spare + 1 ≡ self.old.spare }
        ensures backed { self.new.spare ≤ self.new.room }
    {
        self.timeline.add(time, duration);
        self.spare -= 1;
        if self.timeline.count(time) == self.tracks {
            self.listed.put(time, duration);
        }
    }

    /// An equal stream, but for the room.
    pub fn copy(&self, alloc: Global) -> Result<Stream, NoMemory>
        ensures name { IfOk result (λ copy. copy.name ≡ self.now.name) }
        ensures tracks { IfOk result (λ copy. copy.tracks ≡ self.now.tracks) }
        ensures times { IfOk result (λ copy. copy.times ≡ self.now.times) }
        ensures counts { IfOk result (λ copy. copy.counts ≡ self.now.counts) }
        ensures listed { IfOk result (λ copy. copy.listed ≡ self.now.listed) }
        ensures spare { IfOk result (λ copy. copy.spare ≡ 0) }
    {
        Ok(Stream {
            name: self.name.copy(alloc)?,
            tracks: self.tracks,
            timeline: self.timeline.copy(alloc)?,
            listed: self.listed.copy(alloc)?,
            spare: 0,
        })
    }
}
