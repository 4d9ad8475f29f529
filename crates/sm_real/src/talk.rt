// What one connection asks, as the journal tells it.

use memchr::memchr_iter;
use std::alloc::{AllocError, Global};
use std::collections::VecDeque;
use std::time::Instant;

// The most bytes of a request line that are told.
const TOLD: usize = 256;

// The most requests of one connection that wait for their replies and are told.
const WAITING: usize = 1_024;

/// Where a fragment stands in its stream, in ticks of the stream's timescale.
#[derive(Clone, Copy)]
pub struct Span {
    pub time: u64,
    pub until: u64,
}

impl Span {
    /// From the first of both times up to the last of both ends.
    pub fn and(self, other: Span) -> Span {
        Span {
            time: self.time.min(other.time),
            until: self.until.max(other.until),
        }
    }
}

/// What was stored of a push: how many fragments, and from where up to where.
#[derive(Clone, Copy)]
pub struct Stored {
    pub count: u64,
    pub span: Span,
}

/// A request that waits for its reply.
#[derive(Drop)]
pub struct Asked {
    /// Its first line, as far as it is told.
    pub line: Vec<u8>,
    /// When its head was whole.
    pub at: Instant,
    /// It has a body, which lasts up to its reply.
    pub is_push: bool,
}

/// The requests of one connection: their first lines, in the order of their replies.
#[derive(Drop)]
pub struct Talk {
    pub number: u64,
    /// The number, and the address at the other end, as they stand in a line.
    pub name: String,
    // The first line of the head that is coming.
    first: Vec<u8>,
    // How many lines of that head are whole, and whether the one that is coming has a byte.
    lines: u64,
    is_empty: bool,
    // What comes is the body of a push, of which so much is stored.
    in_body: bool,
    stored: Option<Stored>,
    // The request that is answered next, and those behind it. The first one stands here itself, since mostly there is no other.
    next: Option<Asked>,
    behind: VecDeque<Asked>,
}

impl Talk {
    pub fn new(alloc: Global, number: u64, name: String) -> Talk {
        Talk {
            number,
            name,
            first: Vec::new(alloc),
            lines: 0,
            is_empty: true,
            in_body: false,
            stored: None,
            next: None,
            behind: VecDeque::new(alloc),
        }
    }

    /// Whether a push waits for its reply.
    pub fn is_pushing(&self) -> bool {
        self.in_body
    }

    /// A fragment of the push that comes was stored.
    pub fn store(&mut self, span: Span) {
        let stored = match self.stored {
            Some(stored) => Stored {
                count: stored.count.saturating_add(1),
                span: stored.span.and(span),
            },
            None => Stored { count: 1, span },
        };
        self.stored = Some(stored);
    }

    /// What was stored of the push that came last, if anything.
    pub fn stored(&self) -> Option<Stored> {
        self.stored
    }

    /// These bytes came. The spare one is room for the line of a head that begins, and is empty.
    pub fn note(
        &mut self,
        alloc: Global,
        spare: &mut Vec<u8>,
        bytes: &[u8],
        now: Instant,
    ) -> Result<(), AllocError> {
        if self.in_body {
            return Ok(());
        }
        let mut from = 0;
        for end in memchr_iter(b'\n', bytes) {
            self.take(spare, bytes.get(from..end).unwrap_or(b""))?;
            self.end_line(alloc, now)?;
            if self.in_body {
                return Ok(());
            }
            from = end.saturating_add(1);
        }
        self.take(spare, bytes.get(from..).unwrap_or(b""))
    }

    // Takes as much of a line of a head as came.
    fn take(&mut self, spare: &mut Vec<u8>, part: &[u8]) -> Result<(), AllocError> {
        let text = part.strip_suffix(b"\r").unwrap_or(part);
        if text.is_empty() {
            return Ok(());
        }
        self.is_empty = false;
        if self.lines > 0 {
            return Ok(());
        }
        if self.first.is_empty() {
            std::mem::swap(&mut self.first, spare);
        }
        let room = TOLD.saturating_sub(self.first.len());
        self.first.extend_from_slice(&text[..text.len().min(room)])
    }

    // A line of a head is whole.
    fn end_line(&mut self, alloc: Global, now: Instant) -> Result<(), AllocError> {
        if !self.is_empty {
            self.lines = self.lines.saturating_add(1);
            self.is_empty = true;
            return Ok(());
        }
        if self.lines > 0 {
            return self.ask(alloc, now);
        }
        Ok(())
    }

    // A head is whole.
    fn ask(&mut self, alloc: Global, now: Instant) -> Result<(), AllocError> {
        let asked = self.begun(alloc, now);
        self.in_body = asked.is_push;
        if asked.is_push {
            self.stored = None;
        }
        if self.next.is_none() {
            self.next = Some(asked);
        } else if self.behind.len() < WAITING - 1 {
            self.behind.push_back(asked)?;
        }
        Ok(())
    }

    // The head that is coming, which ends here.
    fn begun(&mut self, alloc: Global, now: Instant) -> Asked {
        let line = std::mem::replace(&mut self.first, Vec::new(alloc));
        self.lines = 0;
        self.is_empty = true;
        let is_push = line.starts_with(b"POST ");
        Asked {
            line,
            at: now,
            is_push,
        }
    }

    /// The request that a reply answers: the first one that waits, or else the head that is coming.
    pub fn answered(&mut self, alloc: Global, now: Instant) -> Asked {
        let asked = match self.next.take() {
            Some(asked) => {
                self.next = self.behind.pop_front();
                asked
            }
            None => self.begun(alloc, now),
        };
        if asked.is_push {
            self.in_body = false;
        }
        asked
    }

    /// The line of the last request that waits for its reply.
    pub fn last(&self) -> &[u8] {
        match (self.behind.back(), &self.next) {
            (Some(asked), _) | (None, Some(asked)) => asked.line.as_slice(),
            (None, None) => b"",
        }
    }
}
