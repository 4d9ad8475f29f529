//! The value of a log, and what needs no disk.
ghost use Rattle.std.specs.Prelude.{◌≡◌, ◌+◌, ◌<◌, ◌≤◌, ◌^◌, [], length, get_or, false, true, None, is_some, IfOk, OnOk};
ghost use Rattle.std.specs.Prelude.{length as length_of};
ghost use Rattle.sm_gatelog.specs.Logs.{Log, kept};

use crate::Slot;
use sm_model::NoMemory;
use std::alloc::Global;
use std::marker::Model;

pub(crate) const FIRST_GATE: u64 = 13;

/// A list of bodies in one file. It keeps where they stand, and not the bodies.
///
/// A value is used with the disk on which it was opened or made. `spare` is for how many bodies the list of places has space,
/// and `room` how long a body may be whose record's bytes have space: `append` and `settle` take no memory.
#[derive(Drop)]
pub struct GateLog {
    pub(crate) alloc: Global,
    pub(crate) file: u32,
    pub(crate) end: u64,
    pub(crate) slots: Vec<Slot>,
    pub(crate) made: bool,
    pub(crate) doubt: Option<u32>,
    pub(crate) spare: u64,
    pub(crate) room: u32,
    // space for one record and a closed gate
    pub(crate) text: Vec<u8>,
}

impl Model for GateLog {
    ghost use Rattle.std.specs.Prelude.{◌+◌, ◌-◌, ◌≤◌, length, vec_capacity};
    ghost use Rattle.sm_gatelog.specs.Logs.{Log, IsSound};

    ghost Value = { Log };

    ghost view = { λ l. record { file = l.file; end = l.end; slots = l.slots.items; made = l.made; doubt = l.doubt; spare = l.spare; room = l.room } };

    ghost invariant = { λ l. IsSound (record { file = l.file; end = l.end; slots = l.slots.items; made = l.made; doubt = l.doubt; spare = l.spare; room = l.room })
        × (length l.slots.items + l.spare ≤ vec_capacity l.slots) × (l.room ≤ vec_capacity l.text - 5) };
}

impl GateLog {
    /// A value that isn't made yet. It has a spare of 2 and no room.
    pub fn blank(alloc: Global, file: u32) -> Result<GateLog, NoMemory>
        ensures { IfOk result (λ log. log ≡ record { file = file; end = 13; slots = []; made = false; doubt = None; spare = 2; room = 0 }) }
    {
        Ok(GateLog {
            alloc,
            file,
            end: FIRST_GATE,
            slots: Vec::with_capacity(alloc, 2)?,
            made: false,
            doubt: None,
            spare: 2,
            room: 0,
            text: Vec::new(alloc),
        })
    }

    /// Takes the memory for a body of this length and for two places of the list, so that a doubt may be settled and then a body
    /// be appended. Want of memory may leave more reserved than before, and changes nothing else.
    pub fn reserve(&mut self, length: u32) -> Result<(), NoMemory>
        ensures spare { OnOk result (2 ≤ self.new.spare) }
        ensures room { OnOk result (length ≤ self.new.room) }
        // Also where memory is wanting.
        ensures same { self.new ≡ record self.old { spare = self.new.spare; room = self.new.room } }
        ensures spare_stays { self.old.spare ≤ self.new.spare }
        ensures room_stays { self.old.room ≤ self.new.room }
    {
        if self.spare < 2 {
            self.slots.reserve(2)?;
            self.spare = 2;
        }
        if self.room < length {
            self.text.clear();
            self.text.reserve(length as usize + 5)?;
            self.room = length;
        }
        Ok(())
    }

    /// Gives the room back. No other call lets it fall.
    pub fn trim(&mut self)
        ensures { self.new ≡ record self.old { room = 0 } }
    {
        self.room = 0;
        self.text = Vec::new(self.alloc);
    }

    /// How many bodies there are.
    pub fn len(&self) -> u64
        ensures { result ≡ length self.now.slots }
    {
        self.slots.len() as u64
    }

    /// The place of the gate of a body, in bytes from the file's beginning.
    pub fn gate(&self, place: u64) -> u64
        requires { place < length self.now.slots }
        ensures { (slot : _) → result ≡ (get_or self.now.slots place slot).gate }
    {
        self.slots[place as usize].gate
    }

    /// The place of the closed gate, in bytes from the file's beginning: 13 for a log without bodies.
    pub fn end(&self) -> u64
        ensures end { result ≡ self.now.end }
        ensures below { result < 2 ^ 63 }
        ensures first { self.now.slots ≡ [] → result ≡ 13 }
    {
        self.end
    }

    /// Whether a body may be stored or not.
    pub fn in_doubt(&self) -> bool
        ensures { result ≡ is_some self.now.doubt }
    {
        self.doubt.is_some()
    }

    // Counts a body in that stands at the end.
    pub(crate) fn keep(&mut self, length: u32) -> u64
        requires made { self.old.made ≡ true }
        requires spare { 1 ≤ self.old.spare }
        requires fits { self.old.end + (6 + length) < 2 ^ 63 }
        ensures place { result ≡ length_of self.old.slots }
        ensures value { self.new ≡ kept self.old length }
    {
        let place = self.slots.len() as u64;
        let slot = Slot {
            gate: self.end,
            length,
        };
        match self.slots.push(slot) {
            Ok(()) => {}
            Err(_) => unreachable!(),
        }
        self.end += 5 + length as u64;
        self.spare -= 1;
        self.doubt = None;
        place
    }
}
