// What is pulled into a store, a line for each thing, for people.

use crate::Trouble;
use crate::digits::{put_number, put_seconds};
use crate::journal::{
    Journal, Opened, millis, put_counts, put_request, put_store, put_text, put_time,
};
use crate::opening::Opening;
use crate::talk::Span;
use sm_fetch::{Reply, read_reply};
use std::alloc::{AllocError, Global};
use std::time::{Clock, Instant};

// How far two lines of one round lie apart, and those of rounds in which nothing happens, in milliseconds.
const APART: u128 = 10_000;

// The most bytes of a request line that are told.
const TOLD: usize = 256;

// The status of what the origin doesn't have.
const NOT_FOUND: u16 = 404;

// How the request line of a manifest ends.
const MANIFEST: &[u8] = b"/Manifest HTTP/1.1";

/// What came of a request.
#[derive(Drop)]
pub enum Came<'b> {
    Bytes(&'b [u8]),
    /// No answer came, and what the system said of it.
    Lost(Option<Trouble>),
}

// Why a request gave nothing.
#[derive(Clone, Copy)]
enum Why {
    Status(u16),
    Cut,
    Unreadable,
    Lost(Option<Trouble>),
}

// What one round came to, or all of them together.
#[derive(Clone, Copy)]
struct Round {
    // How many requests were made, to how many of them the origin said that it has no such fragment, how many gave nothing else, and how many
    // bytes came.
    asked: u64,
    absent: u64,
    missed: u64,
    came: u64,
    // How many entries were kept, and where the fragments among them stand.
    kept: u64,
    span: Option<Span>,
}

/// The journal of a store that is pulled into. A round begins with a manifest that is asked for.
#[derive(Drop)]
pub struct Pulling {
    alloc: Global,
    journal: Journal,
    store: String,
    // The line that is made.
    line: Vec<u8>,
    host: Vec<u8>,
    port: u16,
    // The store is being opened, which is told before the first request.
    opening: Option<Opening>,
    begun: Instant,
    // The number of the round, when its manifest was asked for, whether that came, and what it came to.
    number: u64,
    since: Instant,
    is_listed: bool,
    round: Round,
    // What the rounds before it came to.
    before: Round,
    // When the manifest was asked for of the last round of which all came.
    whole: Instant,
    // The last request was answered, perhaps by a 404, and a while has passed since.
    has_rested: bool,
    is_answered: bool,
    is_absent: bool,
    // When the last line of a round was told, and whether something happened since.
    told: Instant,
    is_news: bool,
}

impl Round {
    fn new() -> Round {
        Round {
            asked: 0,
            absent: 0,
            missed: 0,
            came: 0,
            kept: 0,
            span: None,
        }
    }

    fn keep(&mut self, span: Option<Span>) {
        self.kept = self.kept.saturating_add(1);
        self.span = match (self.span, span) {
            (Some(known), Some(more)) => Some(known.and(more)),
            (known, None) => known,
            (None, more) => more,
        };
    }

    // With what came later.
    fn join(&mut self, later: &Round) {
        self.asked = self.asked.saturating_add(later.asked);
        self.absent = self.absent.saturating_add(later.absent);
        self.missed = self.missed.saturating_add(later.missed);
        self.came = self.came.saturating_add(later.came);
        self.kept = self.kept.saturating_add(later.kept);
    }

    fn put(&self, line: &mut Vec<u8>) -> Result<(), AllocError> {
        let counts = [
            (" asked ", self.asked),
            (" absent ", self.absent),
            (" missed ", self.missed),
            (" kept ", self.kept),
            (" in ", self.came),
        ];
        put_counts(line, &counts)
    }
}

impl Pulling {
    /// A store is being opened, to be pulled into.
    pub fn new(alloc: Global, journal: Journal, store: String, now: Instant) -> Pulling {
        Pulling {
            alloc,
            journal,
            store,
            line: Vec::new(alloc),
            host: Vec::new(alloc),
            port: 0,
            opening: Some(Opening::new(now)),
            begun: now,
            number: 0,
            since: now,
            is_listed: true,
            round: Round::new(),
            before: Round::new(),
            whole: now,
            has_rested: false,
            is_answered: false,
            is_absent: false,
            told: now,
            is_news: false,
        }
    }

    /// A file of the store is looked at.
    pub fn note_file(&mut self) {
        if let Some(opening) = &mut self.opening {
            opening.note_file();
        }
    }

    /// So many bytes of the store are read there.
    pub fn note_read(&mut self, at: u64, bytes: u64) {
        if let Some(opening) = &mut self.opening {
            opening.note_read(at, bytes);
        }
    }

    /// The origin is at this host and this port.
    pub fn turn_to(&mut self, host: &str, port: u16) {
        self.port = port;
        self.host.clear();
        if self.host.extend_from_slice(host.as_bytes()).is_err() {
            self.journal.lose();
        }
    }

    /// This is about to be asked for.
    pub fn ask(&mut self, rt: &impl Clock, now: Instant, request: &[u8]) {
        if let Some(opening) = self.opening.take() {
            let made = self.make_begin(opening.opened(now));
            self.tell(rt, now, made, true);
        }
        if !is_manifest(request) {
            // What was answered before wasn't taken, or it would not be asked for again.
            if self.has_rested {
                let why = if self.is_absent {
                    Why::Status(NOT_FOUND)
                } else {
                    Why::Unreadable
                };
                self.miss(rt, now, request, now, why);
            }
        } else if self.is_listed {
            if self.is_news {
                self.tell_round(rt, now);
            }
            self.begin_round(now);
        }
        self.has_rested = false;
    }

    // A round begins, and all came of the one before it.
    fn begin_round(&mut self, now: Instant) {
        if self.number > 0 {
            self.whole = self.since;
            self.before.join(&self.round);
            self.round = Round::new();
        }
        self.number = self.number.saturating_add(1);
        self.since = now;
        self.is_listed = false;
    }

    /// What was asked for at that moment has ended so.
    pub fn answer(
        &mut self,
        rt: &impl Clock,
        since: Instant,
        now: Instant,
        request: &[u8],
        came: Came<'_>,
    ) {
        self.round.asked = self.round.asked.saturating_add(1);
        let why = match came {
            Came::Bytes(bytes) => {
                self.round.came = self.round.came.saturating_add(bytes.len() as u64);
                why_missed(self.alloc, bytes)
            }
            Came::Lost(trouble) => Some(Why::Lost(trouble)),
        };
        self.is_absent = !is_manifest(request) && is_not_found(why);
        self.is_answered = why.is_none() || self.is_absent;
        match why {
            Some(_) if self.is_absent => self.round.absent = self.round.absent.saturating_add(1),
            Some(why) => self.miss(rt, since, request, now, why),
            None if is_manifest(request) => self.is_listed = true,
            None => {}
        }
        if now.saturating_duration_since(self.told).as_millis() >= APART {
            self.tell_round(rt, now);
        }
    }

    // A request gave nothing.
    fn miss(&mut self, rt: &impl Clock, since: Instant, request: &[u8], now: Instant, why: Why) {
        self.round.missed = self.round.missed.saturating_add(1);
        self.is_news = true;
        let took = millis(now.saturating_duration_since(since));
        let made = self.make_miss(took, request, why);
        self.tell(rt, now, made, false);
    }

    /// A while is waited. Behind an answer a round has ended; behind a 404 that shows only where the next manifest is asked for.
    pub fn rest(&mut self, rt: &impl Clock, now: Instant) {
        if self.is_answered && self.is_listed {
            self.has_rested = true;
            if self.is_news && !self.is_absent {
                self.tell_round(rt, now);
            }
        }
    }

    /// A fragment, which stands there, or a header was kept.
    pub fn keep(&mut self, span: Option<Span>) {
        self.round.keep(span);
        self.is_news = true;
    }

    /// The disk refused something.
    pub fn fault(&mut self, rt: &impl Clock, now: Instant, trouble: &Trouble) {
        let made = self.make_fault(trouble);
        self.tell(rt, now, made, false);
    }

    /// Nothing more is pulled.
    pub fn end(&mut self, rt: &impl Clock, now: Instant) {
        if self.is_news || self.round.absent > 0 {
            self.tell_round(rt, now);
        }
        self.before.join(&self.round);
        let made = self.make_end(now);
        self.tell(rt, now, made, false);
    }

    fn tell_round(&mut self, rt: &impl Clock, now: Instant) {
        self.told = now;
        self.is_news = false;
        let made = self.make_round(now);
        self.tell(rt, now, made, false);
    }

    // The line that was made goes out, where it could be made.
    fn tell(
        &mut self,
        rt: &impl Clock,
        now: Instant,
        made: Result<(), AllocError>,
        is_first: bool,
    ) {
        match made {
            Ok(()) => self.journal.tell(rt, now, &self.line, is_first),
            Err(_) => self.journal.lose(),
        }
        self.line.clear();
    }

    fn make_begin(&mut self, opened: Opened) -> Result<(), AllocError> {
        self.line.extend_from_slice(b"pull from ")?;
        put_text(&mut self.line, &self.host)?;
        let counts = [
            (" port ", u64::from(self.port)),
            (" entries ", opened.entries),
            (" read ", opened.read),
        ];
        put_counts(&mut self.line, &counts)?;
        put_time(&mut self.line, opened.took)?;
        put_store(&mut self.line, self.store.as_str())
    }

    fn make_miss(&mut self, took: u64, request: &[u8], why: Why) -> Result<(), AllocError> {
        self.line.extend_from_slice(b"missed ")?;
        put_number(&mut self.line, took)?;
        put_request(&mut self.line, line_of(request))?;
        put_why(self.alloc, &mut self.line, why)
    }

    fn make_round(&mut self, now: Instant) -> Result<(), AllocError> {
        self.line.extend_from_slice(b"round ")?;
        put_number(&mut self.line, self.number)?;
        self.round.put(&mut self.line)?;
        put_time(&mut self.line, now.saturating_duration_since(self.since))?;
        let whole = if self.has_rested {
            self.since
        } else {
            self.whole
        };
        self.line.extend_from_slice(b" behind ")?;
        put_seconds(&mut self.line, millis(now.saturating_duration_since(whole)))?;
        match self.round.span {
            Some(span) => put_counts(
                &mut self.line,
                &[(" from ", span.time), (" until ", span.until)],
            ),
            None => Ok(()),
        }
    }

    fn make_fault(&mut self, trouble: &Trouble) -> Result<(), AllocError> {
        let text = format!(in self.alloc; "{trouble}")?;
        self.line.extend_from_slice(b"fault ")?;
        put_text(&mut self.line, text.as_bytes())
    }

    fn make_end(&mut self, now: Instant) -> Result<(), AllocError> {
        self.line.extend_from_slice(b"end rounds ")?;
        put_number(&mut self.line, self.number)?;
        self.before.put(&mut self.line)?;
        put_time(&mut self.line, now.saturating_duration_since(self.begun))?;
        put_store(&mut self.line, self.store.as_str())
    }
}

// The line of a request, as far as it is told.
fn line_of(request: &[u8]) -> &[u8] {
    let line = match request.iter().position(|byte| *byte == b'\r') {
        Some(end) => request.get(..end).unwrap_or(request),
        None => request,
    };
    line.get(..TOLD).unwrap_or(line)
}

// Whether a manifest is asked for.
fn is_manifest(request: &[u8]) -> bool {
    match request.iter().position(|byte| *byte == b'\r') {
        Some(end) => request.get(..end).unwrap_or(b"").ends_with(MANIFEST),
        None => false,
    }
}

// Whether it is that the origin has no such thing.
fn is_not_found(why: Option<Why>) -> bool {
    match why {
        Some(Why::Status(status)) => status == NOT_FOUND,
        _ => false,
    }
}

// Why these bytes are no reply of 200, if they are none. Without memory to read them that isn't known, and nothing is said.
fn why_missed(alloc: Global, bytes: &[u8]) -> Option<Why> {
    match read_reply(alloc, bytes) {
        Ok(Reply::Whole { status: 200, .. }) => None,
        Ok(Reply::Whole { status, .. }) => Some(Why::Status(status)),
        Ok(Reply::Cut) => Some(Why::Cut),
        Ok(Reply::Bad { .. }) => Some(Why::Unreadable),
        Err(_) => None,
    }
}

fn put_why(alloc: Global, line: &mut Vec<u8>, why: Why) -> Result<(), AllocError> {
    match why {
        Why::Status(status) => put_counts(line, &[(" status ", u64::from(status))]),
        Why::Cut => line.extend_from_slice(b" cut"),
        Why::Unreadable => line.extend_from_slice(b" unreadable"),
        Why::Lost(None) => line.extend_from_slice(b" lost"),
        Why::Lost(Some(trouble)) => {
            let text = format!(in alloc; "{trouble}")?;
            line.extend_from_slice(b" lost ")?;
            put_text(line, text.as_bytes())
        }
    }
}
