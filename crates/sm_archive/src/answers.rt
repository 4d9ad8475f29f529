//! What the calls of an archive answer.
ghost use Rattle.std.specs.Prelude.{◌≡◌};

use sm_model::Cause;
use thiserror::Error;

/// The disk failed.
#[derive(Clone, Copy, Debug, PartialEq, Eq, Error)]
#[error("the disk failed")]
pub struct DiskFault;

/// What came of a fragment. Behind any answer but `NoMemory` an entry that was in doubt before the call is settled, or the disk failed
/// while it was.
#[derive(Debug, Drop, PartialEq, Eq)]
pub enum Keeping {
    /// It is kept now, as the entry at this place of the log, from 0.
    Kept { place: u64 },
    /// Its address is kept with that duration, at this place of the log. Its samples are not compared.
    Known { place: u64 },
    /// The channel does not declare it, its start is kept with another duration, or it overlaps: `NotDeclared`, `DurationClash` or
    /// `Overlap`. Nothing is written.
    Refused(Cause),
    /// One of the limits is met. Nothing is written.
    Full,
    /// The disk failed, while it settled or while it wrote. What was written is in the log, not in it, or in doubt.
    DiskFault,
    /// Nothing was done.
    NoMemory,
}

/// What came of a header. Behind any answer but `NoMemory` an entry that was in doubt before the call is settled, or the disk failed while
/// it was.
#[derive(Debug, Drop, PartialEq, Eq)]
pub enum Declared {
    /// The log was empty, and its channel is the header's now.
    Fixed,
    /// The channel has each track of the header, equal in all fields.
    Agreed,
    /// The first track that the channel lacks by stream and bitrate, or else the first that differs in another field: `NotDeclared` or
    /// `DeclClash`. Nothing is written.
    Refused(Cause),
    /// One of the limits is met. Nothing is written.
    Full,
    /// The disk failed, while it settled or while it wrote. What was written is in the log, not in it, or in doubt.
    DiskFault,
    /// Nothing was done.
    NoMemory,
}
