// The link over sockets.
ghost use Rattle.std.specs.Prelude.{◌≡◌, ◌≢◌, ◌≤◌, IsErrOf, IfSome, None, Some, is_ok, is_some, true, false};
ghost use Rattle.sm_site.specs.Clauses.{Rose};
ghost use Rattle.sm_real.specs.Telling.{counts_alone, seen_as, unasked};

use crate::descriptors::test_descriptors;
use crate::families::{no_address, takes_both};
use crate::journal::{Journal, Opened};
use crate::sockets::{Asked, Sockets};
use crate::talk::Span;
use crate::{Doing, OpenFault, Patience, Sharing, Trouble};
use mio::net::TcpListener as Listener;
use sm_site::{Event, Failed, Link, LinkError, Selection};
use std::alloc::Global;
use std::io::{self, ErrorKind};
use std::net::{IpAddr, Ipv4Addr, Ipv6Addr, Net, SocketAddr, TcpListener};
use std::time::{Clock, Instant};

// The most peers of a link that others listen beside: those that it answers, and as many that it refuses.
const SHARED_PEERS: usize = 32;

/// A link over sockets, which are asked in turn. It tells nothing of what goes over them. Until it listens each call fails.
///
/// `send` never waits: what a peer does not take at once is kept for it, one send whole, and further ones behind it up to
/// 33,554,432 bytes in all. While something is kept the peer is not read. A peer is given up, and the loop hears that it has closed,
/// where it takes nothing for 30 seconds, where nothing waits for it and it sends nothing for two minutes, and, the one for which
/// most waits first, where more than 536,870,912 bytes wait for all together. What the system said of the last failure is kept for
/// people.
#[derive(Drop)]
pub struct TcpLink<R: Net + Clock + Drop> {
    rt: R,
    alloc: Global,
    patience: Patience,
    sockets: Option<Sockets>,
    // Above all numbers that were given.
    next_number: u64,
    faults: u64,
    send_faults: u64,
    trouble: Option<Trouble>,
}

impl<R: Net + Clock + Drop> TcpLink<R> {
    /// Listening nowhere.
    pub fn new(rt: R, alloc: Global) -> TcpLink<R>
        ensures faults { result.faults ≡ 0 }
        ensures send_faults { result.send_faults ≡ 0 }
        ensures numbers { result.next_number ≡ 1 }
        ensures nowhere { is_some result.sockets ≡ false }
        ensures trouble { result.trouble ≡ None }
    {
        TcpLink::with(rt, alloc, Patience::USUAL)
    }

    /// Listening nowhere, with other limits than the usual ones.
    pub fn with(rt: R, alloc: Global, patience: Patience) -> TcpLink<R>
        ensures faults { result.faults ≡ 0 }
        ensures send_faults { result.send_faults ≡ 0 }
        ensures numbers { result.next_number ≡ 1 }
        ensures nowhere { is_some result.sockets ≡ false }
        ensures patience { result.patience ≡ patience }
        ensures trouble { result.trouble ≡ None }
    {
        TcpLink {
            rt,
            alloc,
            patience,
            sockets: None,
            next_number: 1,
            faults: 0,
            send_faults: 0,
            trouble: None,
        }
    }

    /// What the system refused last, but for what could not be sent.
    pub fn trouble(&self) -> Option<Trouble>
        ensures { result ≡ self.now.trouble }
    {
        self.trouble
    }

    /// Listens at this address. The connections from before are dropped.
    pub fn listen_at(&mut self, address: SocketAddr) -> io::Result<()>
        ensures listens { is_some self.new.sockets ≡ is_ok result }
        ensures faults { self.new.faults ≡ self.old.faults }
        ensures send_faults { self.new.send_faults ≡ self.old.send_faults }
        ensures numbers { self.new.next_number ≡ self.old.next_number }
    {
        self.sockets = None;
        let opened = Sockets::open(&self.rt, self.alloc, address, self.patience)?;
        self.sockets = Some(opened);
        Ok(())
    }

    /// Listens at this port of all addresses of the machine, those of one family alone where it has no others. Port 0 listens nowhere.
    pub fn listen(&mut self, port: u16) -> Result<(), OpenFault>
        ensures listens { port ≢ 0 → is_some self.new.sockets ≡ is_ok result }
        ensures nowhere { port ≡ 0 → is_some self.new.sockets ≡ false }
        ensures failed { IsErrOf result OpenFault.Failed → Rose self.old.faults self.new.faults }
        ensures faults { self.old.faults ≤ self.new.faults }
        ensures send_faults { self.new.send_faults ≡ self.old.send_faults }
        ensures numbers { self.new.next_number ≡ self.old.next_number }
    {
        if port == 0 {
            self.sockets = None;
            return Ok(());
        }
        let listening = self.listen_everywhere(port);
        self.counted(port, listening)
    }

    /// Listens at this port of one address, a literal of IPv4 or IPv6 without brackets; another text is refused. Port 0 listens nowhere.
    pub fn listen_on(&mut self, address: &str, port: u16) -> Result<(), OpenFault>
        ensures listens { port ≢ 0 → is_some self.new.sockets ≡ is_ok result }
        ensures nowhere { port ≡ 0 → is_some self.new.sockets ≡ false }
        ensures failed { IsErrOf result OpenFault.Failed → Rose self.old.faults self.new.faults }
        ensures faults { self.old.faults ≤ self.new.faults }
        ensures send_faults { self.new.send_faults ≡ self.old.send_faults }
        ensures numbers { self.new.next_number ≡ self.old.next_number }
    {
        self.sockets = None;
        if port == 0 {
            return Ok(());
        }
        let listening = match IpAddr::parse_ascii(address.as_bytes()) {
            Ok(address) => self.listen_at(SocketAddr::new(address, port)),
            Err(_) => Err(no_address()),
        };
        self.counted(port, listening)
    }

    // What listening came to; a failure of the system is counted.
    fn counted(&mut self, port: u16, listening: io::Result<()>) -> Result<(), OpenFault>
        ensures done { is_ok result ≡ is_ok listening }
        ensures failed { IsErrOf result OpenFault.Failed → Rose self.old.faults self.new.faults }
        ensures faults { self.old.faults ≤ self.new.faults }
        ensures send_faults { self.new.send_faults ≡ self.old.send_faults }
        ensures numbers { self.new.next_number ≡ self.old.next_number }
        ensures sockets { self.new.sockets ≡ self.old.sockets }
    {
        match listening {
            Ok(()) => Ok(()),
            Err(e) => {
                let fault = OpenFault::of(&e);
                if fault == OpenFault::Failed {
                    self.keep(Trouble::new(Doing::Listening(port), e));
                    self.faults = self.faults.saturating_add(1);
                }
                Err(fault)
            }
        }
    }

    // Keeps what the system said, and nothing else changes.
    fn keep(&mut self, trouble: Trouble)
        ensures kept { self.new.trouble ≡ Some trouble }
        ensures faults { self.new.faults ≡ self.old.faults }
        ensures send_faults { self.new.send_faults ≡ self.old.send_faults }
        ensures numbers { self.new.next_number ≡ self.old.next_number }
        ensures sockets { self.new.sockets ≡ self.old.sockets }
    {
        self.trouble = Some(trouble);
    }

    fn listen_everywhere(&mut self, port: u16) -> io::Result<()>
        ensures listens { is_some self.new.sockets ≡ is_ok result }
        ensures faults { self.new.faults ≡ self.old.faults }
        ensures send_faults { self.new.send_faults ≡ self.old.send_faults }
        ensures numbers { self.new.next_number ≡ self.old.next_number }
    {
        let six = SocketAddr::from((Ipv6Addr::UNSPECIFIED, port));
        if takes_both(&self.rt) {
            return self.listen_at(six);
        }
        match self.listen_at(SocketAddr::from((Ipv4Addr::UNSPECIFIED, port))) {
            Ok(()) => self.widen(six),
            Err(e) if e.kind() == ErrorKind::AddrInUse => Err(e),
            Err(_) => self.listen_at(six),
        }
    }

    // Listens at all addresses of IPv6 beside those of IPv4. Where another process has them the one that is there is let go. Where there is no
    // IPv6 it goes on.
    fn widen(&mut self, six: SocketAddr) -> io::Result<()>
        ensures listens { is_some self.old.sockets ≡ true → is_some self.new.sockets ≡ is_ok result }
        ensures faults { self.new.faults ≡ self.old.faults }
        ensures send_faults { self.new.send_faults ≡ self.old.send_faults }
        ensures numbers { self.new.next_number ≡ self.old.next_number }
    {
        match self.listen_too(six) {
            Err(e) if e.kind() == ErrorKind::AddrInUse => self.listen_at(six),
            _ => Ok(()),
        }
    }

    /// Listens at a further address, beside the one that is there.
    pub fn listen_too(&mut self, address: SocketAddr) -> io::Result<()>
        ensures listens { is_some self.new.sockets ≡ is_some self.old.sockets }
        ensures faults { self.new.faults ≡ self.old.faults }
        ensures send_faults { self.new.send_faults ≡ self.old.send_faults }
        ensures numbers { self.new.next_number ≡ self.old.next_number }
    {
        match &mut self.sockets {
            Some(sockets) => sockets.listen_too(&self.rt, address),
            None => Err(ErrorKind::NotConnected.into()),
        }
    }

    /// Listens by these, which are those of other links too; the connections from before are dropped. What it shares with the other links says
    /// how many connections it takes, up to 32, and when nothing more comes. It fails where the process may not have descriptors enough for
    /// all of the links.
    pub fn share(
        &mut self,
        first: TcpListener,
        second: Option<TcpListener>,
        sharing: Sharing,
    ) -> io::Result<()>
        ensures listens { is_some self.new.sockets ≡ is_ok result }
        ensures few { IfSome self.new.sockets (λ sockets. sockets.peers.most ≡ 32) }
        ensures waiting { IfSome self.new.sockets (λ sockets. sockets.patience ≡ self.old.patience) }
        ensures faults { self.new.faults ≡ self.old.faults }
        ensures send_faults { self.new.send_faults ≡ self.old.send_faults }
        ensures numbers { self.new.next_number ≡ self.old.next_number }
    {
        self.sockets = None;
        test_descriptors(self.alloc, sharing.links())?;
        first.set_nonblocking(true)?;
        let mut sockets = Sockets::over(
            &self.rt,
            self.alloc,
            Listener::from_std(first),
            self.patience,
            SHARED_PEERS,
        )?;
        if let Some(second) = second {
            second.set_nonblocking(true)?;
            sockets.take_second(Listener::from_std(second))?;
        }
        sockets.sharing = Some(sharing);
        self.sockets = Some(sockets);
        Ok(())
    }

    /// Tells what happens from now on in a journal.
    pub fn tell_in(&mut self, journal: Journal)
        ensures listens { is_some self.new.sockets ≡ is_some self.old.sockets }
        ensures trouble { self.new.trouble ≡ self.old.trouble }
        ensures faults { self.new.faults ≡ self.old.faults }
        ensures send_faults { self.new.send_faults ≡ self.old.send_faults }
        ensures numbers { self.new.next_number ≡ self.old.next_number }
    {
        if let Some(sockets) = &mut self.sockets {
            sockets.journal = Some(journal);
        }
    }

    /// The origin begins to serve this store, for the journal.
    pub fn note_begin(&mut self, selection: &Selection, opened: Opened)
        ensures trouble { self.new.trouble ≡ self.old.trouble }
        ensures faults { self.new.faults ≡ self.old.faults }
        ensures send_faults { self.new.send_faults ≡ self.old.send_faults }
        ensures numbers { self.new.next_number ≡ self.old.next_number }
    {
        if let Some(sockets) = &mut self.sockets
            && let Some(journal) = &mut sockets.journal
        {
            journal.begin(selection.store.as_str(), selection.port, opened);
        }
    }

    /// The disk refused something, for the journal.
    pub fn note_fault(&mut self, trouble: &Trouble)
        ensures trouble { self.new.trouble ≡ self.old.trouble }
        ensures faults { self.new.faults ≡ self.old.faults }
        ensures send_faults { self.new.send_faults ≡ self.old.send_faults }
        ensures numbers { self.new.next_number ≡ self.old.next_number }
    {
        if let Some(sockets) = &mut self.sockets
            && let Some(journal) = &mut sockets.journal
        {
            journal.fault(trouble);
        }
    }

    /// A file of the store was brought to rest since this moment, for the piece that was given last, and for the journal.
    pub fn note_sync(&mut self, since: Option<Instant>)
        ensures trouble { self.new.trouble ≡ self.old.trouble }
        ensures faults { self.new.faults ≡ self.old.faults }
        ensures send_faults { self.new.send_faults ≡ self.old.send_faults }
        ensures numbers { self.new.next_number ≡ self.old.next_number }
    {
        if let Some(since) = since
            && let Some(sockets) = &mut self.sockets
            && let Ok(now) = Instant::now(&self.rt)
        {
            sockets.note_sync(now.saturating_duration_since(since));
        }
    }

    /// An entry of the store was kept, a fragment that stands there or a header, for the journal.
    pub fn note_kept(&mut self, span: Option<Span>)
        ensures trouble { self.new.trouble ≡ self.old.trouble }
        ensures faults { self.new.faults ≡ self.old.faults }
        ensures send_faults { self.new.send_faults ≡ self.old.send_faults }
        ensures numbers { self.new.next_number ≡ self.old.next_number }
    {
        if let Some(sockets) = &mut self.sockets {
            sockets.note_kept(span);
        }
    }

    /// The origin of this store ends, for the journal.
    pub fn note_end(&mut self, selection: &Selection)
        ensures trouble { self.new.trouble ≡ self.old.trouble }
        ensures faults { self.new.faults ≡ self.old.faults }
        ensures send_faults { self.new.send_faults ≡ self.old.send_faults }
        ensures numbers { self.new.next_number ≡ self.old.next_number }
    {
        if let Some(sockets) = &mut self.sockets
            && let Some(journal) = &mut sockets.journal
        {
            journal.end(&self.rt, selection.store.as_str());
        }
    }

    /// This moment, where it listens.
    pub fn moment(&self) -> Option<Instant>
        ensures { is_some self.now.sockets ≡ false → result ≡ None }
    {
        let _sockets = self.sockets.as_ref()?;
        Instant::now(&self.rt).ok()
    }

    /// Where it listens.
    pub fn local_addr(&self) -> io::Result<SocketAddr> {
        match &self.sockets {
            Some(sockets) => sockets.local_addr(),
            None => Err(ErrorKind::NotConnected.into()),
        }
    }
}

impl<R: Net + Clock + Drop> Link for TcpLink<R> {
    ghost seen = { seen_as (λ l. counts_alone 0 0 l.faults l.send_faults unasked) };

    ghost numbers = { λ l. l.next_number };

    ghost no_entry_later = { λ l. tt };

    fn next(&mut self) -> Result<Event, LinkError> {
        let number = self.next_number;
        if number < u64::MAX
            && let Some(sockets) = &mut self.sockets
        {
            match sockets.next(&self.rt, number) {
                Asked::Opened => {
                    self.next_number = number + 1;
                    return Ok(Event::Opened(number));
                }
                Asked::Piece(number, piece) => return Ok(Event::Piece(number, piece)),
                Asked::Left(number) => return Ok(Event::Closed(number)),
                Asked::NoMemory => return Err(LinkError::NoMemory),
                Asked::Nothing if sockets.is_over() => return Ok(Event::Ended),
                Asked::Nothing => self.trouble = sockets.trouble(),
            }
        }
        self.faults = self.faults.saturating_add(1);
        Err(LinkError::Failed)
    }

    fn send(&mut self, conn: u64, bytes: &[u8]) -> Result<(), Failed> {
        self.send_both(conn, bytes, &[])
    }

    fn send_both(&mut self, conn: u64, head: &[u8], tail: &[u8]) -> Result<(), Failed> {
        if let Some(sockets) = &mut self.sockets
            && sockets.send(&self.rt, conn, head, tail).is_ok()
        {
            return Ok(());
        }
        self.send_faults = self.send_faults.saturating_add(1);
        Err(Failed)
    }

    fn close(&mut self, conn: u64) {
        if let Some(sockets) = &mut self.sockets {
            sockets.close(conn);
        }
    }
}
