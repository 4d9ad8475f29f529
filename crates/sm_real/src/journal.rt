// What happens on a link, a line for each thing, for people.

use crate::Trouble;
use crate::digits::{put_number, put_seconds};
use crate::outlet::{LOST, Outlet};
use crate::stamp::Stamp;
use crate::talk::{Asked, Span, Stored, Talk};
use crate::tally::Tally;
use crate::viewers::Viewers;
use std::alloc::{AllocError, Global};
use std::fs::File;
use std::io;
use std::net::{Net, SocketAddr};
use std::rt::Files;
use std::time::{Clock, Duration, Instant, SystemTime, UNIX_EPOCH};

// How long lines may wait while the link is busy, and how long one reading of the clock is gone by, in milliseconds.
const WAIT: u128 = 200;

// How far two lines of counts lie apart, in milliseconds.
const APART: u128 = 10_000;

// The shortest time between two writes while the link is busy, in milliseconds.
const SHORT_WAIT: u128 = 10;

// The most bytes of lines that wait.
const MOST: usize = 1_048_576;

// Lines are lost up to where there is room for so many bytes again: those of a line that says how many were, and one behind it.
const ROOM: usize = 2_048;

// From so many bytes on they are written within a round.
const LONG: usize = 524_288;

// What stands in front of the name of an encoder.
const STREAMS: &[u8] = b"Streams(";

// The most bytes of the line of a refusal that are told.
const CAUSE: usize = 128;

/// A journal, whose lines wait in memory until the link comes to the end of a round. What fails harms nothing but the journal: lines
/// that can't be kept or written are counted, and the next one that goes out says how many there were. A file that is cut to nothing
/// begins with the line of the start again.
#[derive(Drop)]
pub struct Journal {
    alloc: Global,
    outlet: Outlet,
    // The lines since the last write, and the one that is being made behind them.
    line: Vec<u8>,
    // How many bytes of that are whole lines.
    whole: usize,
    // How many lines were lost since one went out.
    lost: u64,
    talks: Vec<Talk>,
    // Room for the line of the next request, for all connections together: mostly the one that was told last had it.
    spare: Vec<u8>,
    // The place of the one that was looked for last: the next one that is looked for is mostly there, or next to it.
    last: usize,
    // Since the last line of counts, and up to that line.
    tally: Tally,
    before: Tally,
    // Those of players, if there may be any.
    viewers: Option<Viewers>,
    // When the journal was opened.
    begun: Instant,
    // The moment of the last round, by the clock that was read last.
    stamp: Stamp,
    clock: Reading,
    written: Instant,
    counted: Instant,
}

// What the system's clock told: milliseconds since 1970, and at which moment.
#[derive(Clone, Copy)]
struct Reading {
    at: Instant,
    stamp: u64,
}

/// What opening a store came to.
#[derive(Clone, Copy)]
pub struct Opened {
    /// How many entries were found.
    pub entries: u64,
    /// How many bytes were read.
    pub read: u64,
    /// How long that took.
    pub took: Duration,
}

/// What the peers of a link come to, when a line of counts is due.
#[derive(Clone, Copy)]
pub struct Standing {
    /// How many connections there are.
    pub connections: usize,
    /// How many bytes wait for all of them.
    pub waiting: usize,
}

impl Journal {
    /// Goes on at the end of this file, which is made where it isn't there and may be a pipe.
    pub fn open(
        rt: &(impl Files<File = File> + Net + Clock),
        alloc: Global,
        path: &str,
        viewers: Option<Viewers>,
    ) -> io::Result<Journal> {
        let now = Instant::now(rt)?;
        let clock = Reading::of(rt, now);
        Ok(Journal {
            alloc,
            outlet: Outlet::open(rt, alloc, path)?,
            line: Vec::new(alloc),
            whole: 0,
            lost: 0,
            talks: Vec::new(alloc),
            spare: Vec::new(alloc),
            last: 0,
            tally: Tally::new(),
            before: Tally::new(),
            viewers,
            begun: now,
            stamp: Stamp::new(alloc, clock.stamp),
            clock,
            written: now,
            counted: now,
        })
    }

    /// A store is served at this port.
    pub fn begin(&mut self, store: &str, port: u16, opened: Opened) {
        let from = self.line.len();
        let made = self.tell_begin(store, port, opened);
        self.put(made);
        self.begin_again(from);
    }

    // The file begins with the line from that place on where it is cut to nothing.
    fn begin_again(&mut self, from: usize) {
        if let Some(line) = self.line.get(from..)
            && self.outlet.begin_with(line).is_err()
        {
            self.lose();
        }
    }

    /// Tells a line of this text, which goes out at once. Where it is the first one, a file that is cut to nothing begins with it again.
    pub fn tell(&mut self, rt: &impl Clock, now: Instant, text: &[u8], is_first: bool) {
        self.stamp.turn_to(Reading::of(rt, now).stamp);
        let from = self.line.len();
        let made = self.head(text);
        self.put(made);
        if is_first {
            self.begin_again(from);
        }
        self.written = now;
        self.write();
    }

    fn tell_begin(&mut self, store: &str, port: u16, opened: Opened) -> Result<(), AllocError> {
        self.head(b"start")?;
        let counts = [
            (" port ", u64::from(port)),
            (" entries ", opened.entries),
            (" read ", opened.read),
        ];
        put_counts(&mut self.line, &counts)?;
        put_time(&mut self.line, opened.took)?;
        put_store(&mut self.line, store)
    }

    /// The origin of this store ends.
    pub fn end(&mut self, rt: &impl Clock, store: &str) {
        let now = Instant::now(rt).unwrap_or(self.written);
        self.stamp.turn_to(Reading::of(rt, now).stamp);
        self.before.join(&self.tally);
        self.tally = Tally::new();
        let made = self.tell_end(store, now.saturating_duration_since(self.begun));
        self.put(made);
        self.write();
    }

    fn tell_end(&mut self, store: &str, ran: Duration) -> Result<(), AllocError> {
        self.head(b"end")?;
        put_time(&mut self.line, ran)?;
        let counts = [
            (" connections ", self.before.connections),
            (" pushes ", self.before.pushes),
            (" replies ", self.before.replies),
            (" kept ", self.before.kept),
            (" syncs ", self.before.syncs),
            (" longest ", self.before.longest),
        ];
        put_counts(&mut self.line, &counts)?;
        put_store(&mut self.line, store)
    }

    /// The disk refused something.
    pub fn fault(&mut self, trouble: &Trouble) {
        let made = self.tell_fault(trouble);
        self.put(made);
    }

    fn tell_fault(&mut self, trouble: &Trouble) -> Result<(), AllocError> {
        let text = format!(in self.alloc; "{trouble}")?;
        self.head(b"fault ")?;
        put_text(&mut self.line, text.as_bytes())
    }

    /// A round of the link begins at this moment.
    pub fn turn(&mut self, rt: &impl Clock, now: Instant) {
        if now.saturating_duration_since(self.clock.at).as_millis() >= WAIT {
            self.clock = Reading::of(rt, now);
        }
        self.stamp.turn_to(self.clock.stamp_at(now));
        let since = now.saturating_duration_since(self.written).as_millis();
        if since >= WAIT || since >= SHORT_WAIT && self.is_long() {
            self.written = now;
            self.write();
        }
    }

    /// Whether a line of counts is due.
    pub fn is_due(&self, now: Instant) -> bool {
        now.saturating_duration_since(self.counted).as_millis() >= APART
    }

    /// Tells the counts since the last such line.
    pub fn count(&mut self, now: Instant, standing: Standing) {
        self.counted = now;
        let made = self.tell_counts(standing);
        self.put(made);
        self.before.join(&self.tally);
        self.tally = Tally::new();
    }

    fn tell_counts(&mut self, standing: Standing) -> Result<(), AllocError> {
        let pushes = self.talks.iter().filter(|talk| talk.is_pushing()).count();
        self.head(b"counts")?;
        let counts = [
            (" connections ", standing.connections as u64),
            (" pushes ", pushes as u64),
            (" replies ", self.tally.replies),
            (" kept ", self.tally.kept),
            (" waiting ", standing.waiting as u64),
            (" syncs ", self.tally.syncs),
            (" longest ", self.tally.longest),
        ];
        put_counts(&mut self.line, &counts)?;
        if let Some(viewers) = &self.viewers {
            put_viewers(&mut self.line, viewers)?;
        }
        let bytes = [(" in ", self.tally.came), (" out ", self.tally.went)];
        put_counts(&mut self.line, &bytes)
    }

    /// A file of the store was brought to rest, which took so long.
    pub fn synced(&mut self, took: Duration) {
        self.tally.synced(millis(took));
    }

    /// A fragment, which stands there, or a header was kept, of what came on a connection.
    pub fn kept(&mut self, number: u64, span: Option<Span>) {
        self.tally.kept = self.tally.kept.saturating_add(1);
        if let Some(span) = span
            && let Some(place) = self.place(number)
            && let Some(talk) = self.talks.get_mut(place)
        {
            talk.store(span);
        }
    }

    /// A connection was taken.
    pub fn opened(&mut self, number: u64, peer: &SocketAddr) {
        self.tally.connections = self.tally.connections.saturating_add(1);
        let made = self.tell_opened(number, peer);
        self.put(made);
    }

    fn tell_opened(&mut self, number: u64, peer: &SocketAddr) -> Result<(), AllocError> {
        let talk = Talk::new(
            self.alloc,
            number,
            format!(in self.alloc; " {number} {peer}")?,
        );
        self.head(b"open")?;
        self.line.extend_from_slice(talk.name.as_bytes())?;
        self.talks.push(talk)?;
        Ok(())
    }

    /// These bytes came on a connection.
    pub fn came(&mut self, number: u64, bytes: &[u8], now: Instant) {
        self.tally.came = self.tally.came.saturating_add(bytes.len() as u64);
        let Some(place) = self.place(number) else {
            return;
        };
        let Some(talk) = self.talks.get_mut(place) else {
            return;
        };
        let was_pushing = talk.is_pushing();
        let noted = talk.note(self.alloc, &mut self.spare, bytes, now);
        let begins = talk.is_pushing() && !was_pushing;
        if noted.is_err() {
            self.lose();
        }
        if begins {
            let made = self.tell_push(place);
            self.put(made);
        }
    }

    fn tell_push(&mut self, place: usize) -> Result<(), AllocError> {
        self.head(b"begin")?;
        let Some(talk) = self.talks.get(place) else {
            return Ok(());
        };
        self.line.extend_from_slice(talk.name.as_bytes())?;
        put_request(&mut self.line, talk.last())?;
        if let Some(name) = encoder_of(talk.last()) {
            self.line.extend_from_slice(b" encoder ")?;
            put_text(&mut self.line, name)?;
        }
        Ok(())
    }

    /// Both parts of a reply went out on a connection, or couldn't.
    pub fn sent(&mut self, number: u64, head: &[u8], tail: &[u8], now: Instant, went: bool) {
        if head.starts_with(b"HTTP/1.1 1") {
            return;
        }
        let Some(place) = self.place(number) else {
            return;
        };
        let Some(talk) = self.talks.get_mut(place) else {
            return;
        };
        let asked = talk.answered(self.alloc, now);
        self.tally.replies = self.tally.replies.saturating_add(1);
        if asked.is_push {
            self.tally.pushes = self.tally.pushes.saturating_add(1);
        }
        let bytes = (head.len() as u64).saturating_add(tail.len() as u64);
        self.tally.went = self.tally.went.saturating_add(bytes);
        let made = self.tell_reply(place, &asked, head, bytes, now, went);
        self.put(made);
        self.give_back(asked);
    }

    // A request is told: what its line took is room for the next one.
    fn give_back(&mut self, asked: Asked) {
        let Asked { line, .. } = asked;
        self.spare = line;
        self.spare.clear();
    }

    fn tell_reply(
        &mut self,
        place: usize,
        asked: &Asked,
        head: &[u8],
        bytes: u64,
        now: Instant,
        went: bool,
    ) -> Result<(), AllocError> {
        self.head(if asked.is_push { b"push" } else { b"reply" })?;
        if let Some(talk) = self.talks.get(place) {
            self.line.extend_from_slice(talk.name.as_bytes())?;
        }
        self.line.push(b' ')?;
        let status = head.get(9..12).unwrap_or(b"000");
        self.line.extend_from_slice(status)?;
        self.line.push(b' ')?;
        put_number(&mut self.line, bytes)?;
        self.line.push(b' ')?;
        put_number(
            &mut self.line,
            millis(now.saturating_duration_since(asked.at)),
        )?;
        put_request(&mut self.line, &asked.line)?;
        if asked.is_push || status != b"200".as_slice() {
            self.line.push(b' ')?;
            put_text(&mut self.line, body_line(head))?;
        }
        if !went {
            self.line.extend_from_slice(b" unsent")?;
        }
        if asked.is_push
            && let Some(talk) = self.talks.get(place)
        {
            put_stored(&mut self.line, talk.stored())?;
        }
        Ok(())
    }

    /// A connection is gone, or the loop is done with it.
    pub fn left(&mut self, number: u64) {
        if let Some(place) = self.place(number) {
            let made = self.tell_left(place);
            self.put(made);
        }
    }

    fn tell_left(&mut self, place: usize) -> Result<(), AllocError> {
        if place >= self.talks.len() {
            return Ok(());
        }
        let talk = self.talks.remove(place);
        self.head(b"close")?;
        self.line.extend_from_slice(talk.name.as_bytes())?;
        if talk.is_pushing() {
            self.tally.pushes = self.tally.pushes.saturating_add(1);
            self.line.extend_from_slice(b" cut")?;
            put_request(&mut self.line, talk.last())?;
            put_stored(&mut self.line, talk.stored())?;
        }
        Ok(())
    }

    // The place of a connection among those that are told.
    fn place(&mut self, number: u64) -> Option<usize> {
        let found = match self.place_from(self.last, number) {
            Some(place) => Some(place),
            None => self.place_from(0, number),
        };
        self.last = found.unwrap_or(0);
        found
    }

    // The place of a connection among those from a place on.
    fn place_from(&self, first: usize, number: u64) -> Option<usize> {
        let talks = self.talks.get(first..)?;
        let behind = talks.iter().position(|talk| talk.number == number)?;
        Some(first.saturating_add(behind))
    }

    // Begins a line, and in front of it one that says how many were lost, where there is room for both.
    fn head(&mut self, name: &[u8]) -> Result<(), AllocError> {
        if self.lost > 0 && self.has_room(ROOM) {
            self.tell_lost()?;
        }
        self.stamp.put(&mut self.line)?;
        self.line.extend_from_slice(name)
    }

    fn tell_lost(&mut self) -> Result<(), AllocError> {
        self.line.extend_from_slice(LOST)?;
        put_number(&mut self.line, self.lost)?;
        self.line.push(b'\n')?;
        self.whole = self.line.len();
        self.lost = 0;
        Ok(())
    }

    // Whether so many bytes more may wait.
    fn has_room(&self, more: usize) -> bool {
        let waiting = self.outlet.len().saturating_add(self.line.len());
        waiting.saturating_add(more) <= MOST
    }

    // The line that was made waits with the others, unless too many wait or memory was wanting for it. Behind one that was lost none waits
    // before the line that says so.
    fn put(&mut self, made: Result<(), AllocError>) {
        let is_kept = made.is_ok()
            && self.lost == 0
            && self.has_room(1)
            && self.line.push(b'\n').is_ok();
        if is_kept {
            self.whole = self.line.len();
            if self.whole >= LONG {
                self.write();
            }
        } else {
            self.line.truncate(self.whole);
            self.lose();
        }
    }

    /// A line is lost.
    pub fn lose(&mut self) {
        self.lost = self.lost.saturating_add(1);
    }

    // Whether so much waits that it is written without waiting for more.
    fn is_long(&self) -> bool {
        self.outlet.len().saturating_add(self.line.len()) >= self.outlet.enough()
    }

    // Writes what waits, or as much of it as is taken at once.
    fn write(&mut self) {
        let lost = self.outlet.write(&self.line);
        self.lost = self.lost.saturating_add(lost);
        self.line.clear();
        self.whole = 0;
    }
}

impl Reading {
    // Of 1970 where the clock tells nothing.
    fn of(rt: &impl Clock, now: Instant) -> Reading {
        let stamp = match SystemTime::now(rt) {
            Ok(time) => match time.duration_since(UNIX_EPOCH) {
                Ok(since) => millis(since),
                Err(_) => 0,
            },
            Err(_) => 0,
        };
        Reading { at: now, stamp }
    }

    // Milliseconds since 1970 at a later moment.
    fn stamp_at(&self, now: Instant) -> u64 {
        self.stamp
            .saturating_add(millis(now.saturating_duration_since(self.at)))
    }
}

pub(crate) fn millis(time: Duration) -> u64 {
    u64::try_from(time.as_millis()).unwrap_or(u64::MAX)
}

// Names, and the number of each.
pub(crate) fn put_counts(line: &mut Vec<u8>, counts: &[(&str, u64)]) -> Result<(), AllocError> {
    for (name, count) in counts {
        line.extend_from_slice(name.as_bytes())?;
        put_number(line, *count)?;
    }
    Ok(())
}

// What was stored of a push, where anything was.
fn put_stored(line: &mut Vec<u8>, stored: Option<Stored>) -> Result<(), AllocError> {
    let Some(stored) = stored else {
        return Ok(());
    };
    let counts = [
        (" stored ", stored.count),
        (" from ", stored.span.time),
        (" until ", stored.span.until),
    ];
    put_counts(line, &counts)
}

// The name of an encoder in the line of its request.
fn encoder_of(request: &[u8]) -> Option<&[u8]> {
    let at = request
        .windows(STREAMS.len())
        .position(|word| word == STREAMS)?;
    let name = request.get(at.saturating_add(STREAMS.len())..)?;
    let end = name.iter().position(|byte| *byte == b')')?;
    name.get(..end)
}

// What players tell, where there are any.
fn put_viewers(line: &mut Vec<u8>, viewers: &Viewers) -> Result<(), AllocError> {
    let Some(seen) = viewers.seen() else {
        return Ok(());
    };
    let counts = [(" viewers ", seen.connections), (" answers ", seen.replies)];
    put_counts(line, &counts)
}

pub(crate) fn put_time(line: &mut Vec<u8>, time: Duration) -> Result<(), AllocError> {
    line.extend_from_slice(b" seconds ")?;
    put_seconds(line, millis(time))
}

pub(crate) fn put_store(line: &mut Vec<u8>, store: &str) -> Result<(), AllocError> {
    line.extend_from_slice(b" store ")?;
    put_text(line, store.as_bytes())
}

// A request line in quotes.
pub(crate) fn put_request(line: &mut Vec<u8>, request: &[u8]) -> Result<(), AllocError> {
    line.extend_from_slice(b" \"")?;
    put_text(line, request)?;
    line.push(b'"')?;
    Ok(())
}

// Bytes of others: what is no plain character of ASCII, and a quote, is told as a question mark.
pub(crate) fn put_text(line: &mut Vec<u8>, text: &[u8]) -> Result<(), AllocError> {
    let first = line.len();
    line.extend_from_slice(text)?;
    for byte in line[first..].iter_mut() {
        *byte = plain(*byte);
    }
    Ok(())
}

fn plain(byte: u8) -> u8 {
    if byte < b' ' || byte > b'~' || byte == b'"' {
        b'?'
    } else {
        byte
    }
}

// The first line of a reply's body, which begins behind an empty line.
fn body_line(reply: &[u8]) -> &[u8] {
    let body = match reply
        .windows(4)
        .position(|four| four == b"\r\n\r\n".as_slice())
    {
        Some(at) => reply.get(at.saturating_add(4)..).unwrap_or(b""),
        None => b"",
    };
    let end = body
        .iter()
        .position(|byte| *byte == b'\n')
        .unwrap_or(body.len());
    &body[..end.min(body.len()).min(CAUSE)]
}
