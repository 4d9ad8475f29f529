// A file that is read, and bytes of it that weren't asked for yet.
ghost use Rattle.std.specs.Prelude.{◌≡◌, ◌-◌, ◌≤◌, IsTrue, length, take, drop};

use std::alloc::{AllocError, Global};
use std::fs::File;
use std::io;
use std::os::unix::fs::FileExt;

// So many bytes are read at once where short reads follow one another.
const AHEAD: usize = 131_072;

// A read of more bytes is made by itself.
const SHORT: usize = 16_384;

// A read that begins at most so many bytes behind the last one follows it.
const NEAR: u64 = 16_384;

/// An open file that nobody writes. Short reads that follow one another, as those of a log in its order do, are one call of the
/// system for many.
#[derive(Drop)]
pub struct Reading {
    pub file: u32,
    handle: File,
    // Where the last read ended.
    end: u64,
    // The file's bytes from a place on, the first so many of the room.
    at: u64,
    there: usize,
    room: Vec<u8>,
}

impl Reading {
    pub fn new(alloc: Global, file: u32, handle: File) -> Reading
        ensures { result.file ≡ file }
    {
        Reading {
            file,
            handle,
            end: 0,
            at: 0,
            there: 0,
            room: Vec::new(alloc),
        }
    }

    /// Fills the buffer from this place of the file on, with 0 past its end.
    pub fn fill(&mut self, at: u64, into: &mut [u8]) -> io::Result<()>
        ensures { self.new.file ≡ self.old.file }
    {
        let follows = match at.checked_sub(self.end) {
            Some(gap) => gap <= NEAR,
            None => false,
        };
        self.end = at.saturating_add(into.len() as u64);
        if into.len() <= SHORT && (self.give(at, into) || (follows && self.read_on(at, into))) {
            return Ok(());
        }
        fill(&self.handle, at, into)
    }

    // Gives bytes from this place on, if all were read before.
    fn give(&self, at: u64, into: &mut [u8]) -> bool
        ensures { IsTrue result → (self.now.at ≤ at) × (into.new ≡ take (length into.old) (drop (at - self.now.at) (take self.now.there self.now.room.items))) }
    {
        if let Some(from) = at.checked_sub(self.at)
            && let Some(there) = self.room.as_slice().get(..self.there)
            && let Some(rest) = there.get(from as usize..)
            && let Some(asked) = rest.get(..into.len())
        {
            into.copy_from_slice(asked);
            return true;
        }
        false
    }

    // Reads many bytes from this place on, and gives the first of them. What the system refuses here is asked for once more, alone.
    fn read_on(&mut self, at: u64, into: &mut [u8]) -> bool
        ensures { self.new.file ≡ self.old.file }
    {
        self.at = at;
        self.there = 0;
        if self.make_room().is_ok()
            && let Ok(there) = self.handle.read_at(&mut self.room, at)
        {
            self.there = there;
        }
        self.give(at, into)
    }

    fn make_room(&mut self) -> Result<(), AllocError>
        ensures { self.new.file ≡ self.old.file }
    {
        if self.room.is_empty() {
            self.room.resize(AHEAD, 0)?;
        }
        Ok(())
    }
}

/// Fills the buffer from this place of a file on, with 0 past its end. Mostly one reading does.
pub fn fill(handle: &File, at: u64, into: &mut [u8]) -> io::Result<()> {
    if let Ok(count) = handle.read_at(into, at)
        && count == into.len()
    {
        return Ok(());
    }
    let size = handle.metadata()?.len();
    let there = size.saturating_sub(at).min(into.len() as u64) as usize;
    into[there..].fill(0);
    handle.read_exact_at(&mut into[..there], at)
}
