// Heads of requests that don't come to their end.
ghost use Rattle.std.specs.Prelude.{◌≡◌, None, false};

use memchr::memchr_iter;
use std::time::{Duration, Instant};

// How far the end of a head has come: an empty line, behind a line feed or behind a carriage return and a line feed
// (RFC 9112, 2.2). Empty lines may come first, and end nothing.
#[derive(Clone, Copy, Debug, PartialEq, Eq)]
enum Line {
    // In front of the first line that isn't empty.
    Before,
    // Within a line.
    Within,
    // Behind the line feed of one.
    Fed,
    // Behind that line feed and a carriage return.
    Returned,
    // The head is whole.
    Whole,
}

impl Line {
    // Behind further bytes, none of which is a line feed.
    fn behind(self, part: &[u8]) -> Line {
        match (self, part) {
            (Line::Whole, _) | (_, []) => self,
            (Line::Before, [b'\r']) => Line::Before,
            (Line::Fed, [b'\r']) => Line::Returned,
            _ => Line::Within,
        }
    }

    // Behind a line feed.
    fn fed(self) -> Line {
        match self {
            Line::Before => Line::Before,
            Line::Within => Line::Fed,
            Line::Fed | Line::Returned | Line::Whole => Line::Whole,
        }
    }
}

/// Since when a peer has been sending the head of a request. What comes behind a head is body, or the heads of further requests, up to
/// the reply; then the next head begins.
#[derive(Drop)]
pub struct Trickle {
    line: Line,
    since: Option<Instant>,
}

impl Trickle {
    pub fn new() -> Trickle {
        Trickle {
            line: Line::Before,
            since: None,
        }
    }

    /// These bytes came.
    pub fn note(&mut self, bytes: &[u8], now: Instant) {
        if self.line == Line::Whole {
            return;
        }
        if self.since.is_none() {
            self.since = Some(now);
        }
        self.line = line_behind(self.line, bytes);
        if self.line == Line::Whole {
            self.since = None;
        }
    }

    /// A reply goes out. One of status 100 ends no request.
    pub fn reply(&mut self, head: &[u8]) {
        if !head.starts_with(b"HTTP/1.1 1") {
            self.line = Line::Before;
            self.since = None;
        }
    }

    /// Whether a head has been coming for so many milliseconds and isn't whole.
    pub fn is_late(&self, now: Instant, limit: u64) -> bool
        ensures { self.now.since ≡ None → result ≡ false }
    {
        match self.since {
            Some(since) => { now.saturating_duration_since(since).as_millis() >= u128::from(limit) }
            None => false,
        }
    }

    /// So much of the time doesn't count.
    pub fn forgive(&mut self, gap: Duration) {
        if let Some(since) = self.since
            && let Some(later) = since.checked_add(gap)
        {
            self.since = Some(later);
        }
    }
}

// How far the end of a head has come behind these bytes.
fn line_behind(line: Line, bytes: &[u8]) -> Line {
    // Mostly all of a head came at once, and nothing behind it.
    if bytes.ends_with(b"\r\n\r\n") && !bytes.starts_with(b"\r") && !bytes.starts_with(b"\n") {
        return Line::Whole;
    }
    let mut line = line;
    let mut from = 0;
    for end in memchr_iter(b'\n', bytes) {
        line = line.behind(bytes.get(from..end).unwrap_or(b"")).fed();
        if line == Line::Whole {
            return line;
        }
        from = end.saturating_add(1);
    }
    line.behind(bytes.get(from..).unwrap_or(b""))
}
