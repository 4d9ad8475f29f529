//! Timelines.
ghost use Rattle.std.specs.Prelude.{◌≡◌, ◌≢◌, ◌≤◌, ◌<◌, ◌+◌, ◌-◌, ◌^◌, ℕ, [], ◌∷◌, ◌++◌, IfOk};
ghost use Rattle.std.specs.Prelude.{OnOk, IfSome, IfNone, None, Some, is_some, cond, slice_index_or, length, ◌⊎◌, ◌==◌, if◌then◌else◌};
ghost use Rattle.sm_log.specs.Times.{entry_at, with_entry, decision, AreTimes, IsSpan, overlapped_end};
ghost use Rattle.sm_log.specs.declared.verdict.Decision.TheVariants as decision;
ghost use Rattle.sm_timeline.specs.Places.{place_in};
ghost use Rattle.sm_log.specs.Times.{ends};
ghost use Rattle.sm_timeline.specs.Lines.{more, count_at, counted};

use crate::row::Row;
use crate::search::find;
use sm_log::Decision;
use sm_model::NoMemory;
use std::alloc::Global;
use std::marker::Model;

// The end of the time at that place.
fn end_at(times: &[(u64, u64)], place: usize) -> u64
    requires times { AreTimes times.now }
    requires within { place < length times.now }
    ensures { result ≡ ends (slice_index_or times.now place (0, 0)) }
{
    let time = times[place];
    time.0 + time.1
}

// The end of the time before that place, where it reaches over the start.
fn reach(times: &[(u64, u64)], place: usize, time: u64) -> Option<u64>
    requires times { AreTimes times.now }
    requires place { place ≡ place_in time times.now }
    ensures some { (duration : ℕ) → IfSome result (λ end. overlapped_end (time, duration) times.now ≡ Some end) }
    ensures none { IfNone result ((j : ℕ) → j + 1 ≡ place → ends (slice_index_or times.now j (0, 0)) ≤ time) }
{
    if place == 0 {
        return None;
    }
    let end = end_at(times, place - 1);
    if time < end { Some(end) } else { None }
}

// The end of the first time that overlaps the span, whose start belongs at that place and isn't there.
fn overlap_at(times: &[(u64, u64)], place: usize, time: u64, duration: u64) -> Option<u64>
    requires times { AreTimes times.now }
    requires place { place ≡ place_in time times.now }
    requires absent { entry_at time times.now ≡ None }
    ensures { result ≡ overlapped_end (time, duration) times.now }
{
    match reach(times, place, time) {
        Some(end) => Some(end),
        None => {
            if place < times.len() && (times[place].0 as u128) < time as u128 + duration as u128 {
                Some(end_at(times, place))
            } else {
                None
            }
        }
    }
}

fn decide(times: &[(u64, u64)], time: u64, duration: u64) -> Decision
    requires { AreTimes times.now }
    ensures { result ≡ decision times.now time duration }
{
    match find(times, time) {
        Ok(place) => {
            let kept = times[place].1;
            if kept == duration {
                Decision::There
            } else {
                Decision::Clash { kept }
            }
        }
        Err(place) => match overlap_at(times, place, time, duration) {
            None => Decision::New,
            Some(end) => Decision::Overlap { end },
        },
    }
}

/// The times of one stream in order, searched by halves, with counts. Contracts see them as `Line` says.
#[derive(Debug, Drop)]
pub struct Timeline {
    times: Row<(u64, u64)>,
    counts: Row<u32>,
}

impl Model for Timeline {
    ghost use Rattle.std.specs.Prelude.{min};
    ghost use Rattle.sm_timeline.specs.Lines.{Line, IsLine};

    ghost Value = { Line };

    ghost view = { λ t. record { times = t.times.list; counts = t.counts.list; spare = min t.times.room t.counts.room } };

    ghost invariant = { λ t. IsLine t.times.list t.counts.list };
}

impl Timeline {
    /// No times.
    pub fn new(alloc: Global) -> Timeline
        ensures times { result.times ≡ [] }
        ensures counts { result.counts ≡ [] }
    {
        Timeline {
            times: Row::new(alloc),
            counts: Row::new(alloc),
        }
    }

    /// What the times say of a start and a duration. Takes no memory.
    pub fn decide(&self, time: u64, duration: u64) -> Decision
        ensures { result ≡ decision self.now.times time duration }
    {
        decide(self.times.as_slice(), time, duration)
    }

    /// The duration of the time that starts there.
    pub fn duration(&self, time: u64) -> Option<u64>
        ensures duration { result ≡ entry_at time self.now.times }
        ensures span { IfSome result (λ duration. IsSpan (time, duration)) }
    {
        let times = self.times.as_slice();
        match find(times, time) {
            Ok(place) => Some(times[place].1),
            Err(_) => None,
        }
    }

    /// How many fragments start there. The count stands still at its type's end.
    pub fn count(&self, time: u64) -> u32
        ensures { result ≡ count_at time self.now.times self.now.counts }
    {
        match find(self.times.as_slice(), time) {
            Ok(place) => self.counts.as_slice()[place],
            Err(_) => 0,
        }
    }

    /// Makes room for at least two times more.
    pub fn reserve(&mut self) -> Result<(), NoMemory>
        ensures times { self.new.times ≡ self.old.times }
        ensures counts { self.new.counts ≡ self.old.counts }
        ensures ok { OnOk result (2 ≤ self.new.spare) }
        ensures spare { self.old.spare ≤ self.new.spare }
    {
        self.times.reserve()?;
        self.counts.reserve()
    }

    /// Adds a fragment that starts there, at a new time or at one that is there. Takes no memory.
    pub fn add(&mut self, time: u64, duration: u64)
        requires decision { (decision self.old.times time duration ≡ decision.New) ⊎ (decision self.old.times time duration ≡ decision.There) }
        requires spare { (1 ≤ self.old.spare) ⊎ (decision self.old.times time duration ≡ decision.There) }
        requires span { IsSpan (time, duration) }
        ensures times { self.new.times ≡ with_entry time duration self.old.times }
        ensures counts { self.new.counts ≡ counted time self.old.times self.old.counts }
        ensures count { (start : ℕ) → count_at start self.new.times self.new.counts ≡
            (if time == start then more (count_at time self.old.times self.old.counts) else count_at start self.old.times self.old.counts) }
        ensures spare { self.new.spare ≡ cond (is_some (entry_at time self.old.times)) self.old.spare (self.old.spare - 1) }
    {
        match find(self.times.as_slice(), time) {
            Ok(place) => {
                let count = self.counts.as_slice()[place];
                self.counts.set(place, count.saturating_add(1));
            }
            Err(place) => {
                self.times.insert(place, (time, duration));
                self.counts.insert(place, 1);
            }
        }
    }

    /// The times, lent.
    pub fn times(&self) -> &[(u64, u64)]
        ensures times { result.now ≡ self.now.times }
        ensures apart { AreTimes self.now.times }
    {
        self.times.as_slice()
    }

    /// Equal times with equal counts.
    pub fn copy(&self, alloc: Global) -> Result<Timeline, NoMemory>
        ensures { IfOk result (λ copy. (copy.times ≡ self.now.times) × (copy.counts ≡ self.now.counts)) }
    {
        Ok(Timeline {
            times: self.times.copy(alloc)?,
            counts: self.counts.copy(alloc)?,
        })
    }
}
