//! What a site in memory keeps of each call.
use crate::Event;

/// A file: its number and its bytes.
#[derive(Debug, Drop)]
pub struct FileBytes {
    /// The number, under which no other file stands before it.
    pub number: u32,
    /// The bytes.
    pub bytes: Vec<u8>,
}

/// A call, and whether it failed; or a crash.
#[derive(Debug, Drop)]
pub enum Step {
    /// The size of a file.
    Sized(u32, bool),
    /// A read of a file, from a place, of so many bytes.
    Read(u32, u64, u64, bool),
    /// A write of a file, from a place, of these bytes; whether it failed, and whether it reached the contents.
    Wrote(u32, u64, Vec<u8>, bool, bool),
    /// A sync of a file.
    Synced(u32, bool),
    /// An event that was taken.
    Took(Event),
    /// Bytes that went out on a connection.
    Sent(u64, Vec<u8>, bool),
    /// A connection that was closed.
    Shut(u64),
    /// A crash, and the number by which it chose what it kept.
    Crashed(u8),
}

/// A range that was written since the last sync of its file, and what stood there.
#[derive(Debug, Drop)]
pub struct Pending {
    /// The number of the file.
    pub file: u32,
    /// Where the range begins.
    pub at: u64,
    /// How many bytes it has.
    pub count: u64,
    /// The bytes that stood there, as far as the range was inside the file.
    pub old: Vec<u8>,
    /// How many bytes the file had.
    pub length: u64,
}
