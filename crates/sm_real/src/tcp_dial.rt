// The dial over sockets.
ghost use Rattle.std.specs.Prelude.{◌≡◌, ◌≤◌, ◌<◌, length, vec_len, None, Some, IfOk, OnOk};
ghost use Rattle.sm_fetch.specs.Exchanges.{Rose};
ghost use Rattle.sm_fetch.specs.Origins.{Untold};

use crate::haste::{Share, Waits};
use crate::pulling::Came;
use crate::{Doing, OpenFault, Pulls, Trouble};
use sm_fetch::{Answer, Dial, DialError, Reply, read_reply};
use sm_model::{Bytes, NoMemory};
use std::alloc::{AllocError, Global};
use std::io::{self, ErrorKind, Read, Write};
use std::marker::Model;
use std::net::{Net, SocketAddr, TcpStream, ToSocketAddrs};
use std::thread;
use std::time::{Clock, Duration, Instant};

// The most bytes of one read.
const PIECE: usize = 65_536;

// How long a peer that took nothing may send nothing, in looks.
const LAST: u32 = 3;

// How many bytes of a reply give it one second more.
const MORE: u64 = 65_536;

// The host and the port of the addresses.
#[derive(Drop)]
struct Target {
    host: String,
    port: u16,
}

impl Model for Target {
    ghost use Rattle.std.specs.Prelude.{string_bytes};
    ghost use Rattle.sm_fetch.specs.Exchanges.{Peer};

    ghost Value = { Peer };

    ghost view = { λ p. record { host = string_bytes p.host; port = p.port } };
}

/// A dial that makes a connection of its own for each exchange. It tells no exchanges. Until a host is chosen each exchange is lost.
///
/// An exchange ends where the peer closes, at its limit, or where nothing more comes for a second and the reply is whole. It is lost
/// where no address of the host takes a connection, each but the last within 3 seconds and that one within 30; where the connection
/// fails, or the peer takes or sends nothing for 30 seconds, before the reply is whole; and where the reply isn't whole two minutes
/// after the request, and a second more for each 65,536 bytes of it. The address that took a connection comes first from then on.
/// One in haste waits for 700 milliseconds where the others wait for 3 or 30 seconds, and for a second and not for two minutes. Where its
/// exchanges took half of a second it rests for the next one, and behind one that was lost for two: meanwhile each exchange is lost at once.
/// What the system said of the last exchange, where it was lost, is kept for people.
#[derive(Drop)]
pub struct TcpDial<R: Net<Stream = TcpStream> + Clock + Drop> {
    rt: R,
    alloc: Global,
    addresses: Vec<SocketAddr>,
    turned_to: Option<Target>,
    faults: u64,
    trouble: Option<Trouble>,
    // The journal of what is pulled, where there may be one.
    pulls: Option<Pulls>,
    waits: Waits,
    // The share of its owner's time, of one in haste.
    share: Option<Share>,
}

impl<R: Net<Stream = TcpStream> + Clock + Drop> TcpDial<R> {
    /// Without a host.
    pub fn new(rt: R, alloc: Global) -> TcpDial<R>
        ensures faults { result.faults ≡ 0 }
        ensures turned_to { result.turned_to ≡ None }
        ensures trouble { result.trouble ≡ None }
    {
        TcpDial {
            rt,
            alloc,
            addresses: Vec::new(alloc),
            turned_to: None,
            faults: 0,
            trouble: None,
            pulls: None,
            waits: Waits::patient(),
            share: None,
        }
    }

    /// The same in haste, for an owner who has others that wait.
    pub fn brief(rt: R, alloc: Global) -> TcpDial<R>
        ensures faults { result.faults ≡ 0 }
        ensures turned_to { result.turned_to ≡ None }
        ensures trouble { result.trouble ≡ None }
    {
        TcpDial {
            rt,
            alloc,
            addresses: Vec::new(alloc),
            turned_to: None,
            faults: 0,
            trouble: None,
            pulls: None,
            waits: Waits::brief(),
            share: Some(Share::new()),
        }
    }

    // The moment, of one in haste.
    fn begin(&self) -> Option<Instant> {
        match self.share {
            Some(_) => Instant::now(&self.rt).ok(),
            None => None,
        }
    }

    // Whether it rests at this moment.
    fn rests(&self, now: Option<Instant>) -> bool {
        match (&self.share, now) {
            (Some(share), Some(now)) => share.rests(now),
            (_, _) => false,
        }
    }

    // An exchange began at that moment, and was lost or not.
    fn note_time(&mut self, begun: Option<Instant>, is_lost: bool)
        ensures faults { self.new.faults ≡ self.old.faults }
        ensures turned_to { self.new.turned_to ≡ self.old.turned_to }
    {
        let Some(begun) = begun else {
            return;
        };
        let now = Instant::now(&self.rt).unwrap_or(begun);
        if let Some(share) = &mut self.share {
            share.take(begun, now, is_lost);
        }
    }

    /// What is asked for from now on is told in this journal, once it is open.
    pub fn tell_in(&mut self, pulls: Pulls)
        ensures faults { self.new.faults ≡ self.old.faults }
        ensures turned_to { self.new.turned_to ≡ self.old.turned_to }
        ensures trouble { self.new.trouble ≡ self.old.trouble }
    {
        self.pulls = Some(pulls);
    }

    // For the journal, before a request: the moment, where anything is told.
    fn note_request(&self, request: &[u8]) -> Option<Instant> {
        let pulls = self.pulls.as_ref()?;
        pulls.ask(&self.rt, request)
    }

    // For the journal, what came of a request that was told.
    fn note_answer(&self, since: Option<Instant>, request: &[u8], came: Came<'_>) {
        if let Some(pulls) = &self.pulls
            && let Some(since) = since
        {
            pulls.answer(&self.rt, since, request, came);
        }
    }

    /// What the system refused last, where the last exchange was lost or the host that was wanted last could not be found.
    pub fn trouble(&self) -> Option<Trouble>
        ensures { result ≡ self.now.trouble }
    {
        self.trouble
    }

    // What an error of the system comes to; what it said is kept, and nothing else changes.
    fn refused(&mut self, doing: Doing, error: io::Error) -> OpenFault
        ensures faults { self.new.faults ≡ self.old.faults }
        ensures turned_to { self.new.turned_to ≡ self.old.turned_to }
    {
        let fault = OpenFault::of(&error);
        self.trouble = Some(Trouble::new(doing, error));
        fault
    }

    fn fail(&mut self)
        ensures rose { Rose self.old.faults self.new.faults }
        ensures later { self.old.faults ≤ self.new.faults }
        ensures turned_to { self.new.turned_to ≡ self.old.turned_to }
    {
        self.faults = self.faults.saturating_add(1);
    }

    // Finds the addresses of a host.
    fn turn_to(&mut self, host: &str, port: u16) -> Result<(), OpenFault>
        ensures turned_to { OnOk result (self.new.turned_to ≡ Some (record { host = host.now; port = port })) }
        ensures faults { self.new.faults ≡ self.old.faults }
    {
        let own = String::from_str(self.alloc, host)?;
        match resolve(&self.rt, self.alloc, host, port) {
            Ok(addresses) => {
                self.addresses = addresses;
                self.turned_to = Some(Target { host: own, port });
                Ok(())
            }
            Err(e) => Err(self.refused(Doing::Finding, e)),
        }
    }

    // A connection to the first address that takes one, which comes first from then on.
    fn connect(&mut self) -> io::Result<TcpStream>
        ensures faults { self.new.faults ≡ self.old.faults }
        ensures turned_to { self.new.turned_to ≡ self.old.turned_to }
    {
        let (place, stream) = self.reach()?;
        if place < self.addresses.len() {
            self.addresses.swap(0, place);
        }
        stream.set_nodelay(true)?;
        stream.set_read_timeout(Some(self.waits.look))?;
        stream.set_write_timeout(Some(self.waits.look))?;
        Ok(stream)
    }

    // The place of the first address that takes a connection, and that.
    fn reach(&self) -> io::Result<(usize, TcpStream)> {
        let mut last = ErrorKind::NotConnected.into();
        for (place, address) in self.addresses.iter().enumerate() {
            let behind = self.addresses.len().saturating_sub(place);
            let limit = if behind > 1 {
                self.waits.soon
            } else {
                self.waits.last
            };
            match TcpStream::connect_timeout(&self.rt, address, limit) {
                Ok(stream) => return Ok((place, stream)),
                Err(e) => last = e,
            }
        }
        Err(last)
    }

    // One exchange. A peer that refuses a request may close before it has taken all of it: what it answered counts, if it is whole.
    fn ask(&mut self, request: &[u8], limit: u64) -> Result<Bytes, OpenFault>
        ensures within { IfOk result (λ bytes. length bytes ≤ limit) }
        ensures faults { self.new.faults ≡ self.old.faults }
        ensures turned_to { self.new.turned_to ≡ self.old.turned_to }
    {
        let stream = match self.connect() {
            Ok(stream) => stream,
            Err(e) => return Err(self.refused(Doing::Connecting, e)),
        };
        let sent = send(&stream, request, self.waits.stuck);
        let patience = if sent.is_ok() {
            self.waits.silent
        } else {
            self.waits.silent.min(LAST)
        };
        let (taken, ended) = self.take(&stream, limit, patience)?;
        if sent.is_ok() && ended || self.is_reply(&taken)? {
            return Ok(Bytes::from_vec(taken));
        }
        let error = match sent {
            Err(e) => e,
            Ok(()) => broken_off(),
        };
        let _ = self.refused(Doing::Asking, error);
        Err(OpenFault::Failed)
    }

    // What comes up to the end, the limit, a failure, so many looks without a byte or the end of the time, and whether it was one of the
    // first two.
    fn take(
        &self,
        stream: &TcpStream,
        limit: u64,
        patience: u32,
    ) -> Result<(Vec<u8>, bool), OpenFault>
        ensures within { IfOk result (λ r. vec_len r.0 ≤ limit) }
    {
        let mut buffer = Box::new(self.alloc, [0u8; PIECE]).map_err(AllocError::from)?;
        let mut taken = Vec::new(self.alloc);
        let mut silent = 0u32;
        let begun = Instant::now(&self.rt).map_err(|e| OpenFault::of(&e))?;
        'reading: for _ in 0..u64::MAX {
            let room = limit - taken.len() as u64;
            if room == 0 {
                return Ok((taken, true));
            }
            if self.is_over(begun, taken.len() as u64) {
                break;
            }
            match receive(stream, buffer.as_mut_slice(), room) {
                Ok(0) => return Ok((taken, true)),
                Ok(n) => {
                    taken.extend_from_slice(&buffer[..n.min(PIECE)])?;
                    silent = 0;
                }
                Err(e) => match e.kind() {
                    ErrorKind::Interrupted => {}
                    ErrorKind::WouldBlock | ErrorKind::TimedOut => {
                        silent = silent.saturating_add(1);
                        if silent >= patience || self.is_reply(&taken)? {
                            break;
                        }
                    }
                    _ => break,
                },
            }
        }
        Ok((taken, false))
    }

    // Whether a reply of which so many bytes came has taken too long.
    fn is_over(&self, begun: Instant, came: u64) -> bool {
        match begun.elapsed(&self.rt) {
            Ok(time) => time.as_secs() >= self.waits.whole.saturating_add(came / MORE),
            Err(_) => true,
        }
    }

    // Whether these bytes need no more to be a reply, or to be none.
    fn is_reply(&self, taken: &[u8]) -> Result<bool, NoMemory> {
        match read_reply(self.alloc, taken)? {
            Reply::Cut => Ok(false),
            Reply::Whole { .. } | Reply::Bad { .. } => Ok(true),
        }
    }
}

// What is said of a peer that reads no more.
fn takes_nothing() -> io::Error {
    io::Error::new(ErrorKind::TimedOut, "the other end takes nothing")
}

// What is said of a reply that didn't come whole.
fn broken_off() -> io::Error {
    io::Error::new(ErrorKind::TimedOut, "the reply broke off or took too long")
}

// What is said while nothing is asked.
fn resting() -> io::Error {
    io::Error::new(
        ErrorKind::TimedOut,
        "the other end was too slow a moment ago",
    )
}

// Sends all of these bytes, piece by piece. It fails where the peer takes none for so many looks.
fn send(mut stream: &TcpStream, bytes: &[u8], most: u64) -> io::Result<()> {
    let mut gone = 0usize;
    let mut stuck = 0u64;
    'sending: for _ in 0..u64::MAX {
        let Some(rest) = bytes.get(gone..) else {
            break;
        };
        if rest.is_empty() {
            break;
        }
        match stream.write(&rest[..rest.len().min(PIECE)]) {
            Ok(0) => return Err(ErrorKind::WriteZero.into()),
            Ok(count) => {
                gone = gone.saturating_add(count);
                stuck = 0;
            }
            Err(e) => match e.kind() {
                ErrorKind::Interrupted => {}
                ErrorKind::WouldBlock | ErrorKind::TimedOut => {
                    stuck = stuck.saturating_add(1);
                    if stuck >= most {
                        return Err(takes_nothing());
                    }
                }
                _ => return Err(e),
            },
        }
    }
    Ok(())
}

// Reads once, at most so many bytes.
fn receive(mut stream: &TcpStream, buffer: &mut [u8], room: u64) -> io::Result<usize>
    ensures within { IfOk result (λ n. n ≤ room) }
{
    let most = room.min(buffer.len() as u64) as usize;
    stream.read(&mut buffer[..most])
}

// All addresses of a host, at least one.
fn resolve(rt: &impl Net, alloc: Global, host: &str, port: u16) -> io::Result<Vec<SocketAddr>>
    ensures some { IfOk result (λ addresses. 0 < vec_len addresses) }
{
    let mut addresses = Vec::new(alloc);
    for address in (host, port).to_socket_addrs(rt)? {
        addresses.push(address)?;
    }
    if addresses.is_empty() {
        return Err(ErrorKind::NotFound.into());
    }
    Ok(addresses)
}

impl<R: Net<Stream = TcpStream> + Clock + Drop> Dial for TcpDial<R> {
    ghost log = { λ _. None };

    ghost dial_faults = { λ d. d.faults };

    ghost store = { λ _. Untold };

    ghost chosen = { λ d. d.turned_to };

    ghost later = { λ _ _. Unit {0} };

    ghost later_same = { λ _. tt };

    ghost later_then = { λ _ _ _ _ _. tt };

    fn select(&mut self, host: &str, port: u16) -> Result<(), DialError> {
        self.addresses.clear();
        self.turned_to = None;
        self.trouble = None;
        match self.turn_to(host, port) {
            Ok(()) => {
                if let Some(pulls) = &self.pulls {
                    pulls.turn_to(host, port);
                }
                Ok(())
            }
            Err(OpenFault::NoMemory) => Err(DialError::NoMemory),
            Err(OpenFault::Failed) => {
                self.fail();
                Err(DialError::Failed)
            }
        }
    }

    fn exchange(&mut self, request: &[u8], limit: u64) -> Answer {
        self.trouble = None;
        let begun = self.begin();
        if self.rests(begun) {
            self.trouble = Some(Trouble::new(Doing::Asking, resting()));
            self.fail();
            return Answer::Lost;
        }
        let since = self.note_request(request);
        let asked = self.ask(request, limit);
        self.note_time(begun, asked.is_err());
        match asked {
            Ok(bytes) => {
                self.note_answer(since, request, Came::Bytes(bytes.as_slice()));
                Answer::Bytes(bytes)
            }
            Err(OpenFault::NoMemory) => Answer::NoMemory,
            Err(OpenFault::Failed) => {
                self.note_answer(since, request, Came::Lost(self.trouble));
                self.fail();
                Answer::Lost
            }
        }
    }

    fn pause(&mut self) {
        if let Some(pulls) = &self.pulls {
            pulls.rest(&self.rt);
        }
        thread::sleep(&self.rt, Duration::from_secs(1));
    }
}
