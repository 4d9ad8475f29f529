//! Numbers by time.
ghost use Rattle.std.specs.Prelude.{◌≡◌, ◌≤◌, ◌+◌, ◌-◌, ℕ, [], length, IfOk, OnOk, OnErr, Some, None, slice_get, is_some, cond};
ghost use Rattle.sm_log.specs.Times.{entry_at, with_entry, AreSorted};

use crate::row::Row;
use crate::search::find;
use sm_model::NoMemory;
use std::alloc::Global;
use std::marker::Model;

/// Numbers by the time at which they stand: a list in order of time, searched by halves. Contracts see its entries in that
/// order, and for how many more there is room.
#[derive(Debug, Drop)]
pub struct ByTime {
    items: Row<(u64, u64)>,
}

impl Model for ByTime {
    ghost use Rattle.sm_log.specs.Times.{AreSorted};
    ghost use Rattle.sm_timeline.specs.Lines.{Entries};

    ghost Value = { Entries };

    ghost view = { λ b. record { entries = b.items.list; room = b.items.room } };

    ghost invariant = { λ b. AreSorted b.items.list };
}

impl ByTime {
    /// No entries, and no room.
    pub fn new(alloc: Global) -> ByTime
        ensures { result.entries ≡ [] }
    {
        ByTime {
            items: Row::new(alloc),
        }
    }

    /// The number that stands at that time.
    pub fn get(&self, time: u64) -> Option<u64>
        ensures { result ≡ entry_at time self.now.entries }
    {
        let items = self.items.as_slice();
        match find(items, time) {
            Ok(place) => Some(items[place].1),
            Err(_) => None,
        }
    }

    /// Makes room for at least two more.
    pub fn reserve(&mut self) -> Result<(), NoMemory>
        ensures entries { self.new.entries ≡ self.old.entries }
        ensures ok { OnOk result (2 ≤ self.new.room) }
        ensures room { self.old.room ≤ self.new.room }
    {
        self.items.reserve()
    }

    /// Puts a number at a time where none stands; one that stands there stays. Takes no memory.
    pub fn put(&mut self, time: u64, value: u64)
        requires { 1 ≤ self.old.room }
        ensures entries { self.new.entries ≡ with_entry time value self.old.entries }
        ensures room { self.new.room ≡ cond (is_some (entry_at time self.old.entries)) self.old.room (self.old.room - 1) }
    {
        match find(self.items.as_slice(), time) {
            Ok(_) => {}
            Err(place) => self.items.insert(place, (time, value)),
        }
    }

    /// The entries, lent.
    pub fn as_slice(&self) -> &[(u64, u64)]
        ensures entries { result.now ≡ self.now.entries }
        ensures sorted { AreSorted self.now.entries }
    {
        self.items.as_slice()
    }

    /// How many entries there are.
    pub fn len(&self) -> usize
        ensures { result ≡ length self.now.entries }
    {
        self.items.as_slice().len()
    }

    /// Equal entries.
    pub fn copy(&self, alloc: Global) -> Result<ByTime, NoMemory>
        ensures { IfOk result (λ copy. copy.entries ≡ self.now.entries) }
    {
        Ok(ByTime {
            items: self.items.copy(alloc)?,
        })
    }
}
