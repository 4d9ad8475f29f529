// Sockets, asked in turn.
ghost use Rattle.std.specs.Prelude.{◌≡◌, ◌⊎◌, ◌≤◌, ◌<◌, ◌++◌, length, min, IfOk, OnOk};
ghost use Rattle.sm_real.specs.Found.{IsPiece};
ghost use Rattle.sm_real.specs.Numbers.{SentAmong, Touches};
ghost use Rattle.sm_real.specs.Waiting.{wait_in_all};
ghost use Rattle.sm_real.specs.Whose.{IfPiece, IsHead, IsThere};

use crate::journal::{Journal, Standing};
use crate::outgoing::copy;
use crate::pace::{Pace, Rests};
use crate::peer::{Found, Peer};
use crate::peers::Peers;
use crate::sharing::Sharing;
use crate::talk::Span;
use crate::{Doing, Patience, Trouble};
use mio::net::{TcpListener, TcpStream};
use mio::{Events, Interest, Poll, Token};
use sm_site::{Failed, Piece};
use std::alloc::{AllocError, Global};
use std::io;
use std::net::{Net, SocketAddr};
use std::time::{Clock, Duration, Instant};

// The most bytes of a piece.
const PIECE: usize = 65_536;

// The most peers at once.
const PEERS: usize = 256;

// The most reports of one wait.
const REPORTS: usize = 256;

// The rest after a round in which nothing was done for any peer, in milliseconds: the system wakes it for everything but limits of
// time.
const REST: u64 = 100;

// The rest after a round that gave no event, but did something for a peer, in milliseconds.
const SHORT_REST: u64 = 1;

// Where two rounds lie farther apart than this, in milliseconds, the time between them doesn't count for the peers.
const GAP: u64 = 1_000;

// What is taken at the start and given back with the first round, in bytes: above the length of most replies, and below that of a
// large part of a push, which is to go back to the system.
const SPARE: usize = 4_000_000;

const LISTENER: Token = Token(0);

/// What asking comes to.
#[derive(Drop)]
pub enum Asked {
    Nothing,
    Opened,
    Piece(u64, Piece),
    Left(u64),
    NoMemory,
}

// Whose piece was given last, when, and what was brought to rest for it since.
#[derive(Clone, Copy)]
struct Given {
    number: u64,
    at: Instant,
    rests: Rests,
    // When something was sent for it last, if the clock was read then.
    sent: Option<Instant>,
}

impl Given {
    // When the loop is done with it: now, or at its last reply, where nothing was brought to rest for it and the clock was read then. What
    // such a turn does behind that is soon done.
    fn end(&self, rt: &impl Clock) -> Option<Instant> {
        match self.sent {
            Some(sent) if self.rests.count == 0 => Some(sent),
            _ => Instant::now(rt).ok(),
        }
    }
}

/// One or two listeners and their peers.
#[derive(Drop)]
pub struct Sockets {
    alloc: Global,
    poll: Poll,
    events: Events,
    listener: TcpListener,
    // The one of the other family, where the first one doesn't take both.
    second: Option<TcpListener>,
    // A connection may wait to be taken.
    waiting: bool,
    // Beyond a number of them, new ones wait until some are gone.
    peers: Peers,
    patience: Patience,
    // The place of the next one to ask.
    turn: usize,
    // This round has given an event.
    busy: bool,
    // This round has done something for a peer.
    moved: bool,
    // The piece that the loop has in hand.
    given: Option<Given>,
    // When the loop was done with the one before.
    done: Instant,
    pace: Pace,
    now: Instant,
    buffer: Box<[u8; PIECE]>,
    // GNU's C library asks the system anew for each large piece of memory, and gives each back at once, until one as large as this
    // has come back; then it keeps those that are no larger. Without that a reply spends most of its time in page faults. Other
    // libraries pass over it.
    spare: Vec<u8>,
    // Bytes of the buffer that are still to be given, and whose they are.
    held: usize,
    holder: u64,
    /// Where what happens is told, if anywhere.
    pub journal: Option<Journal>,
    /// What it has in common with others that listen at the same place, if any do.
    pub sharing: Option<Sharing>,
    // What the system said when it couldn't be waited for any more.
    refused: Option<io::Error>,
}

impl Sockets {
    pub fn open(
        rt: &(impl Net + Clock),
        alloc: Global,
        address: SocketAddr,
        patience: Patience,
    ) -> io::Result<Sockets> {
        let listener = TcpListener::bind(rt, address)?;
        Sockets::over(rt, alloc, listener, patience, PEERS)
    }

    /// Over a listener that doesn't wait, with so many peers at most.
    pub fn over(
        rt: &(impl Net + Clock),
        alloc: Global,
        listener: TcpListener,
        patience: Patience,
        most: usize,
    ) -> io::Result<Sockets>
        ensures { IfOk result (λ sockets. (sockets.peers.most ≡ most) × (sockets.patience ≡ patience)) }
    {
        let poll = Poll::new(rt)?;
        let mut listener = listener;
        poll.registry()
            .register(&mut listener, LISTENER, Interest::READABLE)?;
        let now = Instant::now(rt)?;
        Ok(Sockets {
            poll,
            events: Events::with_capacity(alloc, REPORTS)?,
            listener,
            second: None,
            waiting: true,
            peers: Peers::new(alloc, most)?,
            patience,
            turn: 0,
            busy: false,
            moved: false,
            given: None,
            done: now,
            pace: Pace::new(now),
            now,
            buffer: Box::new(alloc, [0; PIECE])?,
            spare: Vec::with_capacity(alloc, SPARE)?,
            held: 0,
            holder: 0,
            journal: None,
            sharing: None,
            refused: None,
            alloc,
        })
    }

    /// Listens at a further address too.
    pub fn listen_too(&mut self, net: &impl Net, address: SocketAddr) -> io::Result<()> {
        let second = TcpListener::bind(net, address)?;
        self.take_second(second)
    }

    /// Listens by a further listener too, which doesn't wait.
    pub fn take_second(&mut self, listener: TcpListener) -> io::Result<()>
        ensures peers { self.new.peers ≡ self.old.peers }
        ensures patience { self.new.patience ≡ self.old.patience }
    {
        let mut second = listener;
        self.poll
            .registry()
            .register(&mut second, LISTENER, Interest::READABLE)?;
        self.second = Some(second);
        Ok(())
    }

    pub fn local_addr(&self) -> io::Result<SocketAddr> {
        self.listener.local_addr()
    }

    /// What the system refused, where events can't be waited for any more.
    pub fn trouble(&self) -> Option<Trouble> {
        match self.refused {
            Some(error) => Some(Trouble::new(Doing::Waiting, error)),
            None => None,
        }
    }

    /// Goes on up to the next event. Where no round has one, or the system fails, this comes to nothing.
    pub fn next(&mut self, rt: &impl Clock, number: u64) -> Asked
        ensures piece { IsPiece result }
        ensures held { IfPiece result (λ n piece. (n ≡ self.new.holder) × IsHead self.new.buffer.value piece) }
    {
        self.weigh(rt);
        let asked = self.seek(rt, number);
        if let Asked::Piece(holder, _) = &asked {
            self.given = Some(Given {
                number: *holder,
                at: self.done.max(self.now),
                rests: Rests::none(),
                sent: None,
            });
        }
        asked
    }

    /// Something was brought to rest for the piece that was given last, which took so long.
    pub fn note_sync(&mut self, took: Duration)
        ensures { self.new.peers ≡ self.old.peers }
    {
        if let Some(given) = &mut self.given {
            given.rests.add(took);
        }
        if let Some(journal) = &mut self.journal {
            journal.synced(took);
        }
    }

    /// An entry of the store was kept for the piece that was given last: a fragment, which stands there, or a header.
    pub fn note_kept(&mut self, span: Option<Span>)
        ensures { self.new.peers ≡ self.old.peers }
    {
        let holder = self.holder;
        if let Some(journal) = &mut self.journal {
            journal.kept(holder, span);
        }
    }

    // The loop is done with the piece that was given last.
    fn weigh(&mut self, rt: &impl Clock) {
        if let Some(given) = self.given.take()
            && let Some(now) = given.end(rt)
        {
            let took = now.saturating_duration_since(given.at);
            self.done = now;
            self.pace.note(now, &given.rests);
            self.peers
                .weigh(given.number, took.as_millis(), self.pace.soon());
        }
    }

    // Goes on in rounds up to the next event.
    fn seek(&mut self, rt: &impl Clock, number: u64) -> Asked
        ensures piece { IsPiece result }
        ensures held { IfPiece result (λ n piece. (n ≡ self.new.holder) × IsHead self.new.buffer.value piece) }
    {
        for _ in 0..u32::MAX {
            if self.is_over() {
                break;
            }
            match self.ask(number) {
                Asked::Nothing => {}
                asked => return asked,
            }
            if let Err(e) = self.gather(rt) {
                self.refused = Some(e);
                break;
            }
        }
        Asked::Nothing
    }

    /// Whether it is to end.
    pub fn is_over(&self) -> bool {
        match &self.sharing {
            Some(sharing) => sharing.is_over(),
            None => false,
        }
    }

    // Whether it takes one more connection.
    fn has_room(&mut self) -> bool
        ensures { self.new.peers ≡ self.old.peers }
    {
        let open = self.peers.len();
        match &mut self.sharing {
            Some(sharing) => sharing.takes(open),
            None => true,
        }
    }

    // Begins a round: what the system reports is noted, after a rest where the last round gave no event.
    fn gather(&mut self, rt: &impl Clock) -> io::Result<()> {
        let rest = self.rest();
        self.busy = false;
        self.moved = false;
        self.turn = 0;
        if self.spare.capacity() > 0 {
            self.spare = Vec::new(self.alloc);
        }
        self.poll
            .poll(&mut self.events, Some(Duration::from_millis(rest)))?;
        self.turn_to(Instant::now(rt)?);
        if self.sharing.is_some() {
            let most = most_waiting(&self.sharing, self.patience.waiting);
            self.peers.relieve(self.alloc, most);
        }
        self.tell(rt);
        for readiness in &self.events {
            let token = readiness.token();
            if token == LISTENER {
                self.waiting = true;
                continue;
            }
            self.peers.note(token.0 as u64, readiness);
        }
        Ok(())
    }

    // A round begins for the journal too, which counts the peers now and then, and for those that listen at the same place.
    fn tell(&mut self, rt: &impl Clock) {
        if let Some(sharing) = &mut self.sharing {
            sharing.tell(self.peers.len(), self.peers.waiting());
        }
        let Some(journal) = &mut self.journal else {
            return;
        };
        journal.turn(rt, self.now);
        if journal.is_due(self.now) {
            let standing = Standing {
                connections: self.peers.len(),
                waiting: self.peers.waiting(),
            };
            journal.count(self.now, standing);
        }
    }

    // How long the system is waited for, in milliseconds.
    fn rest(&self) -> u64 {
        if self.busy {
            0
        } else if self.moved {
            SHORT_REST
        } else {
            REST
        }
    }

    // A round begins now. Where the loop or the machine stood still, no peer could be served: that time doesn't count.
    fn turn_to(&mut self, now: Instant) {
        let gap = now.saturating_duration_since(self.now);
        if gap.as_millis() > u128::from(GAP) {
            self.peers.forgive(gap);
        }
        self.now = now;
    }

    // Asks those that this round has not asked, up to the first event. A connection that is taken gets this number.
    fn ask(&mut self, number: u64) -> Asked
        ensures piece { IsPiece result }
        ensures held { IfPiece result (λ n piece. (n ≡ self.new.holder) × IsHead self.new.buffer.value piece) }
        // The number is that of a peer that is there, or of one whose bytes were read before and could not be given.
        ensures whose { IfPiece result (λ n piece. IsThere n self.new.peers.list.items ⊎ ((n ≡ self.old.holder) × (0 < self.old.held))) }
    {
        if self.held > 0 {
            return self.give();
        }
        for _ in 0..self.peers.len() {
            let place = self.turn;
            if place >= self.peers.len() {
                break;
            }
            self.turn = place + 1;
            if !self.peers.is_due(place, self.now, &self.patience) {
                continue;
            }
            self.moved = true;
            let soon = self.pace.soon();
            let buffer = self.buffer.as_mut_slice();
            let (holder, found) = self
                .peers
                .visit(place, self.alloc, buffer, soon, self.now, &self.patience);
            match found {
                Found::Nothing => {}
                Found::Bytes(n) => {
                    self.busy = true;
                    self.held = n;
                    self.holder = holder;
                    return self.give();
                }
                Found::Left => {
                    self.busy = true;
                    self.tell_left(holder);
                    return Asked::Left(holder);
                }
                Found::Gone => {
                    self.turn = place;
                    self.peers.remove(place);
                }
            }
        }
        self.accept(number)
    }

    // One has ended, or the loop is done with it.
    fn tell_left(&mut self, number: u64)
        ensures { self.new.peers ≡ self.old.peers }
    {
        if let Some(journal) = &mut self.journal {
            journal.left(number);
        }
    }

    // Gives the bytes that the buffer holds.
    fn give(&mut self) -> Asked
        ensures piece { IsPiece result }
        ensures held { IfPiece result (λ n piece. (n ≡ self.new.holder) × IsHead self.new.buffer.value piece) }
        ensures all { IfPiece result (λ n piece. length piece ≡ min self.old.held 65536) }
        ensures holder { self.new.holder ≡ self.old.holder }
        ensures buffer { self.new.buffer ≡ self.old.buffer }
        ensures peers { self.new.peers ≡ self.old.peers }
    {
        let held = self.held.min(PIECE);
        if held == 0 {
            return Asked::Nothing;
        }
        match copy(self.alloc, &self.buffer[..held]) {
            Ok(bytes) => {
                self.held = 0;
                if let Some(journal) = &mut self.journal {
                    journal.came(self.holder, &bytes, self.now);
                }
                Asked::Piece(self.holder, Piece::from_vec(bytes))
            }
            Err(AllocError) => Asked::NoMemory,
        }
    }

    // A connection of either listener.
    fn take(&self) -> io::Result<(TcpStream, SocketAddr)> {
        if let Some(second) = &self.second {
            match second.accept() {
                Err(e) if e.kind() == io::ErrorKind::WouldBlock => {}
                taken => return taken,
            }
        }
        self.listener.accept()
    }

    // Takes the next connection that waits.
    fn accept(&mut self, number: u64) -> Asked
        ensures piece { IsPiece result }
        ensures no_piece { IfPiece result (λ n piece. ⊥) }
    {
        if !self.has_room() || !self.waiting || self.peers.is_full() {
            return Asked::Nothing;
        }
        let (mut stream, address) = match self.take() {
            Ok(taken) => taken,
            Err(e) => {
                if e.kind() == io::ErrorKind::WouldBlock {
                    self.waiting = false;
                }
                return Asked::Nothing;
            }
        };
        let _ = stream.set_nodelay(true);
        let both = Interest::READABLE | Interest::WRITABLE;
        let token = Token(number as usize);
        if self
            .poll
            .registry()
            .register(&mut stream, token, both)
            .is_err()
        {
            return Asked::Nothing;
        }
        let peer = Peer::new(self.alloc, number, stream, self.now);
        if self.peers.add(peer).is_err() {
            return Asked::NoMemory;
        }
        self.busy = true;
        if let Some(journal) = &mut self.journal {
            journal.opened(number, &address);
        }
        Asked::Opened
    }

    /// Sends both parts to one, and gives up those for which most waits where too much does for all together.
    pub fn send(
        &mut self,
        rt: &impl Clock,
        number: u64,
        head: &[u8],
        tail: &[u8],
    ) -> Result<(), Failed>
        ensures bounded { wait_in_all self.new.peers.list.items ≤ self.new.patience.waiting }
        ensures sent { OnOk result (SentAmong number (head.now ++ tail.now) self.old.peers.list.items self.new.peers.list.items) }
    {
        let sent = self.peers.send(self.alloc, number, head, tail, self.now);
        let most = most_waiting(&self.sharing, self.patience.waiting);
        self.peers.relieve(self.alloc, most);
        self.tell_sent(rt, number, head, tail, sent.is_ok());
        sent
    }

    // A reply went out, or couldn't.
    fn tell_sent(&mut self, rt: &impl Clock, number: u64, head: &[u8], tail: &[u8], went: bool)
        ensures peers { self.new.peers ≡ self.old.peers }
        ensures patience { self.new.patience ≡ self.old.patience }
    {
        if let Some(sharing) = &mut self.sharing {
            sharing.replied(self.peers.waiting());
        }
        if let Some(journal) = &mut self.journal
            && let Ok(now) = Instant::now(rt)
        {
            journal.sent(number, head, tail, now, went);
            if let Some(given) = &mut self.given {
                given.sent = Some(now);
            }
        }
    }

    /// The loop is done with one.
    pub fn close(&mut self, number: u64)
        ensures { (self.new.peers.list.items ≡ self.old.peers.list.items) ⊎ Touches number self.old.peers.list.items self.new.peers.list.items }
    {
        self.peers.close(number);
        self.tell_left(number);
    }
}

// How many bytes may wait for all peers of a link together: no more than its limit, and where others listen at the same place, what they
// leave of it.
fn most_waiting(sharing: &Option<Sharing>, limit: usize) -> usize
    ensures { result ≤ limit }
{
    match sharing {
        Some(sharing) => sharing.room(limit),
        None => limit,
    }
}
