// One connection: what it has to read, and what it has not yet taken.
ghost use Rattle.std.specs.Prelude.{◌≡◌, ◌≢◌, ◌↔◌, ◌⊎◌, true, false, ◌≤◌, ◌<◌, ◌+◌, ◌++◌, [], length, IfOk, OnOk};
ghost use Rattle.sm_real.specs.Found.{FitsIn};
ghost use Rattle.sm_real.specs.Late.{IsLate};
ghost use Rattle.sm_real.specs.Sends.{Sends};

use crate::Patience;
use crate::budget::Budget;
use crate::outgoing::Outgoing;
use crate::trickle::Trickle;
use mio::event::Event as Readiness;
use mio::net::TcpStream;
use sm_site::Failed;
use std::alloc::{AllocError, Global};
use std::io::{ErrorKind, IoSlice, Read, Write};
use std::net::Shutdown;
use std::time::{Duration, Instant};

// Behind bytes that wait others are kept up to this many in all. Where nothing waits a send of any length is kept.
const QUEUE: usize = 33_554_432;

#[derive(Clone, Copy, Debug, PartialEq, Eq)]
enum Phase {
    // The loop may send and close.
    Open,
    // Nothing more goes in or out, and the loop is to be told.
    Lost,
    // Closed by the loop: what waits goes out, then the sending side is shut.
    Closing,
    // The sending side is shut, and what still comes is dropped.
    Lingering,
    // The peer has ended and the loop knows: what waits goes out.
    Ended,
    // Nothing more goes in or out.
    Broken,
}

/// What one visit of a peer finds.
#[derive(Clone, Copy, Debug, PartialEq, Eq)]
pub enum Found {
    Nothing,
    /// So many bytes stand at the head of the buffer.
    Bytes(usize),
    /// The peer has ended, or is given up.
    Left,
    /// Nothing is left to do for it.
    Gone,
}

#[derive(Drop)]
pub struct Peer {
    pub number: u64,
    stream: TcpStream,
    phase: Phase,
    // There may be something to read.
    readable: bool,
    // The end of what the peer sends has come, so a short read is not the last.
    ending: bool,
    // There may be room to write.
    writable: bool,
    // What waits.
    queue: Outgoing,
    // How many bytes the system has taken.
    taken: u64,
    // How many bytes are read at once.
    budget: Budget,
    // The head that it is sending.
    head: Trickle,
    // Since when nothing was read from it, and the system has taken nothing for it.
    since: Instant,
    // When a write of what waits was tried last.
    tried: Instant,
}

impl Peer {
    pub fn new(alloc: Global, number: u64, stream: TcpStream, now: Instant) -> Peer {
        Peer {
            number,
            stream,
            phase: Phase::Open,
            readable: true,
            ending: false,
            writable: true,
            queue: Outgoing::new(alloc),
            taken: 0,
            budget: Budget::new(),
            head: Trickle::new(),
            since: now,
            tried: now,
        }
    }

    /// Takes note of what the system reports.
    pub fn note(&mut self, readiness: &Readiness) {
        if readiness.is_read_closed() || readiness.is_error() {
            self.ending = true;
            self.readable = true;
        }
        if readiness.is_readable() {
            self.readable = true;
        }
        if readiness.is_writable() || readiness.is_write_closed() || readiness.is_error() {
            self.writable = true;
        }
    }

    fn is_queued(&self) -> bool
        ensures nothing { result ≡ false → self.now.queue ≡ [] }
        ensures something { result ≡ true → self.now.queue ≢ [] }
    {
        self.queue.len() > 0
    }

    /// How many bytes wait for it.
    pub fn waiting(&self) -> usize
        ensures { result ≡ length self.now.queue }
    {
        self.queue.len()
    }

    // Whether nothing has moved for so many milliseconds.
    fn is_late(&self, now: Instant, limit: u64) -> bool
        ensures { result ≡ true ↔ IsLate limit now self.now }
    {
        now.saturating_duration_since(self.since).as_millis() >= u128::from(limit)
    }

    // Whether it has sent nothing for too long, or the head of a request for too long.
    fn is_tiring(&self, now: Instant, patience: &Patience) -> bool
        ensures silent { IsLate patience.now.silent now self.now → result ≡ true }
    {
        self.is_late(now, patience.silent) || self.head.is_late(now, patience.head)
    }

    /// Whether there is something to do for this peer. There is where its time is up.
    pub fn is_due(&self, now: Instant, patience: &Patience) -> bool
        ensures stuck { self.now.queue ≢ [] → IsLate patience.now.stuck now self.now → result ≡ true }
        ensures silent { self.now.queue ≡ [] → self.now.phase ≡ Phase.Open → IsLate patience.now.silent now self.now → result ≡ true }
    {
        if self.is_queued() {
            return self.writable || self.is_late(now, patience.stuck);
        }
        match self.phase {
            Phase::Open => self.readable || self.is_tiring(now, patience),
            Phase::Lingering => self.readable || self.is_late(now, patience.linger),
            Phase::Lost | Phase::Closing | Phase::Ended | Phase::Broken => true,
        }
    }

    /// A turn of the loop on a piece of this peer took so many milliseconds, where so many bytes were soon done whatever they are.
    pub fn weigh(&mut self, took: u128, soon: usize) {
        self.budget.weigh(took, soon);
    }

    /// So much of the time doesn't count, since nobody could be served.
    pub fn forgive(&mut self, gap: Duration)
        ensures queue { self.new.queue ≡ self.old.queue }
        ensures number { self.new.number ≡ self.old.number }
    {
        if let Some(later) = self.since.checked_add(gap) {
            self.since = later;
        }
        self.head.forgive(gap);
    }

    /// Nothing more goes in or out, and the loop is to be told, unless it closed this peer.
    pub fn lose(&mut self, alloc: Global)
        ensures nothing { self.new.queue ≡ [] }
        ensures number { self.new.number ≡ self.old.number }
        ensures tried { self.new.tried ≡ self.old.tried }
    {
        self.phase = match self.phase {
            Phase::Open | Phase::Lost => Phase::Lost,
            _ => Phase::Broken,
        };
        self.queue.clear(alloc);
    }

    // At most one write of what waits.
    fn flush(&mut self, alloc: Global, now: Instant) -> Result<(), Failed>
        ensures goes_out { OnOk result (Sends [] self.old self.new) }
        ensures moved { OnOk result ((self.new.since ≡ self.old.since) ⊎ (self.old.taken < self.new.taken)) }
        ensures tried { self.new.tried ≡ now }
        ensures number { self.new.number ≡ self.old.number }
    {
        self.tried = now;
        let (count, room) = offer(&self.stream, self.queue.as_slice(), &[])?;
        let taken = self.taken.checked_add(count as u64).ok_or(Failed)?;
        self.taken = taken;
        self.writable = room;
        self.queue.pass(alloc, count);
        if count == 0 {
            return Ok(());
        }
        self.since = now;
        Ok(())
    }

    // At most one read.
    fn receive(&mut self, buffer: &mut [u8]) -> Found
        ensures fits { FitsIn (length buffer.new) result }
        ensures queue { self.new.queue ≡ self.old.queue }
        ensures taken { self.new.taken ≡ self.old.taken }
        ensures tried { self.new.tried ≡ self.old.tried }
        ensures number { self.new.number ≡ self.old.number }
    {
        let room = buffer.len();
        match (&self.stream).read(buffer) {
            Ok(0) => Found::Left,
            Ok(n) => {
                if n < room && !self.ending {
                    self.readable = false;
                }
                Found::Bytes(n)
            }
            Err(e) => match e.kind() {
                ErrorKind::WouldBlock => {
                    self.readable = false;
                    Found::Nothing
                }
                ErrorKind::Interrupted => Found::Nothing,
                _ => Found::Left
            },
        }
    }

    /// One step of this peer: at most one write and one read. It is given up where it has taken nothing of what waits for too long, and
    /// the system takes nothing now either; or where nothing waits, and it has sent nothing for too long, or the head of a request. No
    /// more bytes are found than are soon done.
    pub fn visit(
        &mut self,
        alloc: Global,
        buffer: &mut [u8],
        soon: usize,
        now: Instant,
        patience: &Patience,
    ) -> Found
        ensures fits { FitsIn (length buffer.new) result }
        ensures soon { 256 ≤ soon → FitsIn soon result }
        ensures stuck { IsLate patience.now.stuck now self.old → (self.new.queue ≡ []) ⊎ (self.old.taken < self.new.taken) }
        ensures silent { self.old.queue ≡ [] → self.old.phase ≡ Phase.Open → self.old.readable ≡ false
            → IsLate patience.now.silent now self.old → result ≡ Found.Left }
        // What waits changes only behind a try to write it, so that nobody is given up without one.
        ensures last_try { (self.new.queue ≡ self.old.queue) ⊎ (self.new.tried ≡ now) }
        ensures number { self.new.number ≡ self.old.number }
    {
        if self.is_queued() {
            self.go_on(alloc, buffer, soon, now, patience)
        } else {
            self.step(buffer, soon, now, patience)
        }
    }

    // Writes, and gives the peer up where that fails, or where nothing has gone for too long.
    fn write(&mut self, alloc: Global, now: Instant, limit: u64)
        ensures stuck { IsLate limit now self.old → (self.new.queue ≡ []) ⊎ (self.old.taken < self.new.taken) }
        ensures tried { self.new.tried ≡ now }
        ensures number { self.new.number ≡ self.old.number }
    {
        // The system reports room only once much of it is free, and takes bytes as soon as there is any: so the last word is a write's.
        let failed = self.flush(alloc, now).is_err();
        if failed || self.is_queued() && self.is_late(now, limit) {
            self.lose(alloc);
        }
    }

    // A step where something waits.
    fn go_on(
        &mut self,
        alloc: Global,
        buffer: &mut [u8],
        soon: usize,
        now: Instant,
        patience: &Patience,
    ) -> Found
        ensures fits { FitsIn (length buffer.new) result }
        ensures soon { 256 ≤ soon → FitsIn soon result }
        ensures stuck { IsLate patience.now.stuck now self.old → (self.new.queue ≡ []) ⊎ (self.old.taken < self.new.taken) }
        ensures last_try { (self.new.queue ≡ self.old.queue) ⊎ (self.new.tried ≡ now) }
        ensures number { self.new.number ≡ self.old.number }
    {
        if self.writable || self.is_late(now, patience.stuck) {
            self.write(alloc, now, patience.stuck);
        }
        if self.is_queued() {
            return Found::Nothing;
        }
        self.step(buffer, soon, now, patience)
    }

    // A step where nothing waits.
    fn step(&mut self, buffer: &mut [u8], soon: usize, now: Instant, patience: &Patience) -> Found
        ensures fits { FitsIn (length buffer.new) result }
        ensures soon { 256 ≤ soon → FitsIn soon result }
        ensures queue { self.new.queue ≡ self.old.queue }
        ensures taken { self.new.taken ≡ self.old.taken }
        ensures tried { self.new.tried ≡ self.old.tried }
        ensures number { self.new.number ≡ self.old.number }
        ensures silent { self.old.phase ≡ Phase.Open → self.old.readable ≡ false → IsLate patience.now.silent now self.old → result ≡ Found.Left }
    {
        match self.phase {
            Phase::Open => self.listen(buffer, soon, now, patience),
            Phase::Lost => {
                self.phase = Phase::Broken;
                Found::Left
            }
            Phase::Closing => {
                self.shut(now);
                Found::Nothing
            }
            Phase::Lingering => {
                if self.drain(buffer, now, patience.linger) {
                    Found::Gone
                } else {
                    Found::Nothing
                }
            }
            Phase::Ended | Phase::Broken => Found::Gone,
        }
    }

    fn listen(&mut self, buffer: &mut [u8], soon: usize, now: Instant, patience: &Patience) -> Found
        ensures fits { FitsIn (length buffer.new) result }
        ensures soon { 256 ≤ soon → FitsIn soon result }
        ensures silent { self.old.readable ≡ false → IsLate patience.now.silent now self.old → result ≡ Found.Left }
        ensures queue { self.new.queue ≡ self.old.queue }
        ensures taken { self.new.taken ≡ self.old.taken }
        ensures tried { self.new.tried ≡ self.old.tried }
        ensures number { self.new.number ≡ self.old.number }
    {
        let most = self.budget.bytes(soon).min(buffer.len());
        let found = if self.readable {
            self.receive(&mut buffer[..most])
        } else if self.is_tiring(now, patience) {
            Found::Left
        } else {
            Found::Nothing
        };
        match found {
            Found::Bytes(count) => {
                self.since = now;
                self.head.note(&buffer[..count], now);
            }
            Found::Left => self.phase = Phase::Ended,
            Found::Nothing | Found::Gone => {}
        }
        found
    }

    fn shut(&mut self, now: Instant)
        ensures queue { self.new.queue ≡ self.old.queue }
        ensures taken { self.new.taken ≡ self.old.taken }
        ensures tried { self.new.tried ≡ self.old.tried }
        ensures number { self.new.number ≡ self.old.number }
    {
        self.since = now;
        self.phase = match self.stream.shutdown(Shutdown::Write) {
            Ok(()) => Phase::Lingering,
            Err(_) => Phase::Broken,
        };
    }

    // What still comes is dropped, so that the peer reads what went out before the close. Says whether nothing more is to come.
    fn drain(&mut self, buffer: &mut [u8], now: Instant, limit: u64) -> bool
        ensures queue { self.new.queue ≡ self.old.queue }
        ensures taken { self.new.taken ≡ self.old.taken }
        ensures tried { self.new.tried ≡ self.old.tried }
        ensures number { self.new.number ≡ self.old.number }
    {
        if self.is_late(now, limit) {
            return true;
        }
        match self.receive(buffer) {
            Found::Left | Found::Gone => true,
            Found::Nothing | Found::Bytes(_) => false,
        }
    }

    /// Sends what the peer takes of both parts at once, and keeps the rest for it.
    pub fn send(
        &mut self,
        alloc: Global,
        head: &[u8],
        tail: &[u8],
        now: Instant,
    ) -> Result<(), Failed>
        ensures goes_out { OnOk result (Sends (head.now ++ tail.now) self.old self.new) }
    {
        if self.phase != Phase::Open {
            return Err(Failed);
        }
        self.head.reply(head);
        let sent = if self.is_queued() {
            self.append(head, tail)
        } else {
            self.begin(head, tail, now)
        };
        if sent.is_err() {
            self.lose(alloc);
        }
        sent
    }

    #[tactic(auto, using(crate::proofs::Parts::left_in_head, crate::proofs::Parts::left_in_tail))]
    fn begin(&mut self, head: &[u8], tail: &[u8], now: Instant) -> Result<(), Failed>
        requires nothing_waits { self.old.queue ≡ [] }
        ensures goes_out { OnOk result (Sends (head.now ++ tail.now) self.old self.new) }
    {
        let (count, room) = offer(&self.stream, head, tail)?;
        let taken = self.taken.checked_add(count as u64).ok_or(Failed)?;
        self.taken = taken;
        self.writable = room;
        self.since = now;
        if count < head.len() {
            self.keep(&head[count..], tail)
        } else {
            self.keep(&[], &tail[count - head.len()..])
        }
    }

    fn append(&mut self, head: &[u8], tail: &[u8]) -> Result<(), Failed>
        ensures waits { OnOk result (self.new.queue ≡ self.old.queue ++ (head.now ++ tail.now)) }
        ensures taken { self.new.taken ≡ self.old.taken }
    {
        let waiting = self.queue.len();
        if head.len() > QUEUE
            || tail.len() > QUEUE - head.len()
            || waiting > QUEUE - head.len() - tail.len()
        {
            return Err(Failed);
        }
        self.keep(head, tail)
    }

    fn keep(&mut self, head: &[u8], tail: &[u8]) -> Result<(), Failed>
        ensures waits { OnOk result (self.new.queue ≡ self.old.queue ++ (head.now ++ tail.now)) }
        ensures taken { self.new.taken ≡ self.old.taken }
    {
        // Mostly the system takes all, and nothing waits.
        if head.is_empty() && tail.is_empty() {
            return Ok(());
        }
        match self.queue.push_both(head, tail) {
            Ok(()) => Ok(()),
            Err(AllocError) => Err(Failed),
        }
    }

    /// The loop is done with this peer.
    pub fn close(&mut self) {
        self.phase = match self.phase {
            Phase::Open => Phase::Closing,
            Phase::Lost => Phase::Broken,
            other => other,
        };
    }
}

// How many of both parts the system takes at once, and whether there may be room for more.
fn offer(stream: &TcpStream, head: &[u8], tail: &[u8]) -> Result<(usize, bool), Failed>
    ensures count { IfOk result (λ r. r.0 ≤ length (head.now ++ tail.now)) }
{
    match stream.write_vectored(&[IoSlice::new(head), IoSlice::new(tail)]) {
        Ok(n) => Ok((n, n == head.len().saturating_add(tail.len()))),
        Err(e) => match e.kind() {
            ErrorKind::WouldBlock => Ok((0, false)),
            ErrorKind::Interrupted => Ok((0, true)),
            _ => Err(Failed),
        },
    }
}
