// A store that is opened, for a journal.

use crate::journal::Opened;
use std::time::Instant;

// Where the body of the first entry of a file stands.
const FIRST_BODY: u64 = 18;

/// Since when a store has been opened, and what was read of it.
#[derive(Drop)]
pub struct Opening {
    since: Instant,
    entries: u64,
    read: u64,
}

impl Opening {
    pub fn new(since: Instant) -> Opening {
        Opening {
            since,
            entries: 0,
            read: 0,
        }
    }

    /// A file is looked at: it is brought to rest before. All are, before the first entry is read.
    pub fn note_file(&mut self) {
        self.entries = 0;
    }

    /// So many bytes are read. Behind the head of a file, once all files were looked at, each reading is that of the body of one entry.
    pub fn note_read(&mut self, at: u64, bytes: u64) {
        self.read = self.read.saturating_add(bytes);
        if at >= FIRST_BODY {
            self.entries = self.entries.saturating_add(1);
        }
    }

    /// The store is open at this moment.
    pub fn opened(&self, now: Instant) -> Opened {
        Opened {
            entries: self.entries,
            read: self.read,
            took: now.saturating_duration_since(self.since),
        }
    }
}
