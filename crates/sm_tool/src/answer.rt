//! What a command answers.

use sm_model::Bytes;

/// Why a file that was begun in the output isn't whole.
#[derive(Clone, Copy, Debug, PartialEq, Eq)]
pub enum Stop {
    /// The disk failed.
    Disk,
    /// What was read of the store is not what was written.
    Damaged,
    /// The output failed.
    Output,
    /// Memory ran out.
    Memory,
}

/// What a command comes to, before it is printed.
#[derive(Debug, Drop)]
pub enum Answer {
    /// The text that was asked for.
    Found(Bytes),
    /// The words are none of a command. The text says so, what is wrong in them, and how those of the command stand that they begin with.
    Words(Bytes),
    /// Reading the input failed.
    Unread,
    /// The input has more than 268,435,456 bytes.
    TooLong,
    /// The ladder has more than 1,048,576 bytes.
    LongLadder,
    /// The input is no whole push, or no ladder. The line says where, and why.
    Refused(Bytes),
    /// The input has no such fragment.
    NotKept,
    /// The channel that stands differs from the ladder. The line says how.
    Clash(Bytes),
    /// What was asked of an origin came to another end. The line says which.
    Undone(Bytes),
    /// What was read of the store is not what was written.
    Damaged,
    /// The disk failed.
    DiskFault,
    /// The link failed.
    LinkFault,
    /// A track of a play failed.
    TrackFault,
    /// Memory ran out.
    Starved,
    /// A limit of the store is met.
    Full,
    /// The folder has no store. The line says where.
    NotAStore(Bytes),
    /// A file was begun in the output, and isn't whole. No line is told behind what was written of it.
    Unfinished(Stop),
}
