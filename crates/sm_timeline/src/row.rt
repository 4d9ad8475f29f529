//! Lists with room at both ends.
ghost use Rattle.std.specs.Prelude.{◌≡◌, ◌≤◌, ◌<◌, ◌+◌, ◌-◌, ℕ, [], true, false, length, drop, set, IfOk, OnOk, OnErr, vec_len, vec_capacity};
ghost use Rattle.std.specs.List.{insert};

use sm_model::NoMemory;
use std::alloc::Global;
use std::marker::Model;

// Whether an item moves what stands before its place: where that is the shorter part, or there is room for nothing else.
fn moves_front<T>(cells: &Vec<T>, start: usize, place: usize) -> bool
    requires within { start ≤ vec_len cells.now }
    requires room { 1 ≤ start + (vec_capacity cells.now - vec_len cells.now) }
    ensures front { result ≡ true → 1 ≤ start }
    ensures back { result ≡ false → vec_len cells.now < vec_capacity cells.now }
{
    let len = cells.len();
    0 < start && (len == cells.capacity() || place < (len - start) / 2)
}

// What stands before the place moves by one cell, into the free one before the start.
fn insert_in_front<T: Copy>(cells: &mut Vec<T>, start: usize, place: usize, item: T)
    requires free { 1 ≤ start }
    requires within { start + place ≤ length cells.old.items }
    ensures list { drop (start - 1) cells.new.items ≡ insert (drop start cells.old.items) place item }
    ensures len { vec_len cells.new ≡ vec_len cells.old }
    ensures capacity { vec_capacity cells.new ≡ vec_capacity cells.old }
{
    cells.copy_within(start..start + place, start - 1);
    cells[start - 1 + place] = item;
}

// What stands behind the place moves by one cell.
fn insert_behind<T: Copy>(cells: &mut Vec<T>, start: usize, place: usize, item: T)
    requires room { vec_len cells.old < vec_capacity cells.old }
    requires within { start + place ≤ length cells.old.items }
    ensures list { drop start cells.new.items ≡ insert (drop start cells.old.items) place item }
    ensures len { vec_len cells.new ≡ vec_len cells.old + 1 }
    ensures capacity { vec_capacity cells.new ≡ vec_capacity cells.old }
{
    let _ = cells.insert(start + place, item);
}

// Moves all cells up, by half as many as there are. The result is how many are free before the first.
fn open_front<T: Copy>(cells: &mut Vec<T>) -> Result<usize, NoMemory>
    ensures list { IfOk result (λ free. drop free cells.new.items ≡ cells.old.items) }
    ensures len { IfOk result (λ free. vec_len cells.new ≡ free + vec_len cells.old) }
    ensures err { OnErr result (cells.new.items ≡ cells.old.items) }
    ensures capacity { vec_capacity cells.old ≤ vec_capacity cells.new }
{
    let len = cells.len();
    let free = len - len / 2;
    cells.extend_from_within(0..free)?;
    cells.copy_within(0..len, free);
    Ok(free)
}

/// A list in one piece with room at both ends: the cells before the start are free. What is inserted moves the shorter of the
/// two parts beside it, so that nothing moves where it goes to either end.
#[derive(Debug, Drop)]
pub struct Row<T> {
    cells: Vec<T>,
    start: usize,
}

impl<T> Model for Row<T> {
    ghost use Rattle.std.specs.Prelude.{◌≤◌, ◌+◌, ◌-◌, drop, vec_len, vec_capacity};
    ghost use Rattle.sm_timeline.specs.Rows.{RoomyList};

    ghost Value = { RoomyList T };

    ghost view = { λ r. record { list = drop r.start r.cells.items; room = r.start + (vec_capacity r.cells - vec_len r.cells) } };

    ghost invariant = { λ r. r.start ≤ vec_len r.cells };
}

impl<T: Copy> Row<T> {
    /// Nothing, and no room.
    pub fn new(alloc: Global) -> Row<T>
        ensures { result.list ≡ [] }
    {
        Row {
            cells: Vec::new(alloc),
            start: 0,
        }
    }

    /// The list, lent.
    pub fn as_slice(&self) -> &[T]
        ensures { result.now ≡ self.now.list }
    {
        &self.cells[self.start..]
    }

    /// Makes room for at least two more, at the back, and at the front in proportion to the list where none was left there.
    pub fn reserve(&mut self) -> Result<(), NoMemory>
        ensures list { self.new.list ≡ self.old.list }
        ensures ok { OnOk result (2 ≤ self.new.room) }
        ensures room { self.old.room ≤ self.new.room }
    {
        if self.start == 0 {
            self.start = open_front(&mut self.cells)?;
        }
        self.cells.reserve(2)?;
        Ok(())
    }

    /// Inserts an item before the one at that place. Takes no memory.
    pub fn insert(&mut self, place: usize, item: T)
        requires within { place ≤ length self.old.list }
        requires room { 1 ≤ self.old.room }
        ensures list { self.new.list ≡ insert self.old.list place item }
        ensures room { self.new.room + 1 ≡ self.old.room }
    {
        if moves_front(&self.cells, self.start, place) {
            insert_in_front(&mut self.cells, self.start, place, item);
            self.start -= 1;
        } else {
            insert_behind(&mut self.cells, self.start, place, item);
        }
    }

    /// Puts another item in the place of one.
    pub fn set(&mut self, place: usize, item: T)
        requires { place < length self.old.list }
        ensures list { self.new.list ≡ set self.old.list place item }
        ensures room { self.new.room ≡ self.old.room }
    {
        self.cells[self.start + place] = item;
    }

    /// An equal list, without room.
    pub fn copy(&self, alloc: Global) -> Result<Row<T>, NoMemory>
        ensures { IfOk result (λ copy. copy.list ≡ self.now.list) }
    {
        Ok(Row {
            cells: Vec::from_slice(alloc, self.as_slice())?,
            start: 0,
        })
    }
}
