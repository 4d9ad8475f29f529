//! What a link brings, and why a call of the outside brings nothing.
ghost use Rattle.std.specs.Prelude.{◌≡◌, IfOk};

use crate::Piece;
use std::alloc::{AllocError, Global};

/// One thing that a link brings.
#[derive(Debug, Drop)]
pub enum Event {
    /// A connection of this number was opened. Numbers rise and are never used again.
    Opened(u64),
    /// The connection of this number brought bytes, 1 to 65,536 of them.
    Piece(u64, Piece),
    /// The peer closed the connection of this number.
    Closed(u64),
    /// Nothing more comes.
    Ended,
}

/// Why no event was taken.
#[derive(Clone, Copy, Debug, PartialEq, Eq)]
pub enum LinkError {
    /// The link failed, and its count rose.
    Failed,
    /// There was no memory for the event.
    NoMemory,
}

/// Why a site could not be selected.
#[derive(Clone, Copy, Debug, PartialEq, Eq)]
pub enum SiteError {
    /// The disk failed, and its count rose.
    Disk,
    /// The link failed, and its count rose.
    Link,
    /// There was no memory for it.
    NoMemory,
}

impl Event {
    /// An equal event.
    pub fn copy(&self, alloc: Global) -> Result<Event, AllocError>
        ensures { IfOk result (λ event. event ≡ self.now) }
    {
        match self {
            Event::Opened(n) => Ok(Event::Opened(*n)),
            Event::Piece(n, piece) => Ok(Event::Piece(*n, piece.copy(alloc)?)),
            Event::Closed(n) => Ok(Event::Closed(*n)),
            Event::Ended => Ok(Event::Ended),
        }
    }
}
