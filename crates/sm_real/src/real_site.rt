// The site of a machine: the disk in a folder and the link over sockets.
ghost use Rattle.std.specs.Prelude.{◌≡◌, ◌≤◌, refl, IsErrOf};
ghost use Rattle.sm_site.specs.Clauses.{Rose};
ghost use Rattle.sm_real.specs.Telling.{counts_alone, seen_as, unasked};

use crate::journal::Journal;
use crate::opening::Opening;
use crate::talk::Span;
use crate::{Doing, FileDisk, OpenFault, Pulls, TcpLink, Trouble, Viewers};
use sm_site::{Disk, Event, Failed, Link, LinkError, Selected, Selection, Site, SiteError};
use std::alloc::Global;
use std::fs::File;
use std::net::Net;
use std::rt::Files;
use std::time::{Clock, Instant};

/// A disk in a folder and a link over sockets. It tells no contents and no transcript. After a refusal of `select` it has neither a
/// folder nor a port.
#[derive(Drop)]
pub struct RealSite<R: Files<File = File> + Net + Clock + Drop> {
    rt: R,
    alloc: Global,
    disk: FileDisk<R>,
    link: TcpLink<R>,
    selected: Selected,
    // The store is being opened, which the journal tells once the first event is waited for.
    opening: Option<Opening>,
    // Whom players answer, for the journal.
    viewers: Option<Viewers>,
    // The journal of what is pulled, where there may be one.
    pulls: Option<Pulls>,
    // Where the fragment stands whose record was written last, for the journal.
    span: Option<Span>,
}

// Where the fragment of a record stands, if it is one's: behind four bytes of its length, the kind of its body and its track come eight of its
// time and eight of its duration.
fn span_of(text: &[u8]) -> Option<Span> {
    let kind = *text.get(4)?;
    if kind != 0x02 && kind != 0x12 {
        return None;
    }
    let time = number_at(text, 9)?;
    let duration = number_at(text, 17)?;
    Some(Span {
        time,
        until: time.saturating_add(duration),
    })
}

// The number in the eight bytes at a place.
fn number_at(text: &[u8], at: usize) -> Option<u64> {
    match text.get(at..)? {
        [a, b, c, d, e, f, g, h, ..] => {
            Some(u64::from_be_bytes([*a, *b, *c, *d, *e, *f, *g, *h]))
        }
        _ => None,
    }
}

impl<R: Files<File = File> + Net + Clock + Copy + Drop> RealSite<R> {
    /// Without a folder and a port, as it is before `select`.
    pub fn new(rt: R, alloc: Global) -> RealSite<R>
        ensures reads { result.disk.reads ≡ 0 }
        ensures disk_faults { result.disk.faults ≡ 0 }
        ensures link_faults { result.link.faults ≡ 0 }
        ensures send_faults { result.link.send_faults ≡ 0 }
        ensures numbers { result.link.next_number ≡ 1 }
        ensures unchosen { result.selected ≡ unasked }
    {
        RealSite {
            disk: FileDisk::new(rt, alloc),
            link: TcpLink::new(rt, alloc),
            rt,
            alloc,
            selected: Selected::never(),
            opening: None,
            viewers: None,
            pulls: None,
            span: None,
        }
    }
}

impl<R: Files<File = File> + Net + Clock + Drop> RealSite<R> {
    // Takes the folder, and listens.
    fn open(&mut self, selection: &Selection) -> Result<(), SiteError>
        ensures disk { IsErrOf result SiteError.Disk → Rose self.old.disk.faults self.new.disk.faults }
        ensures link { IsErrOf result SiteError.Link → Rose self.old.link.faults self.new.link.faults }
        ensures disk_faults { self.old.disk.faults ≤ self.new.disk.faults }
        ensures link_faults { self.old.link.faults ≤ self.new.link.faults }
        ensures reads { self.new.disk.reads ≡ self.old.disk.reads }
        ensures send_faults { self.new.link.send_faults ≡ self.old.link.send_faults }
        ensures numbers { self.new.link.next_number ≡ self.old.link.next_number }
        ensures selected { self.new.selected ≡ self.old.selected }
    {
        match self.disk.choose(selection.store.as_str(), selection.make) {
            Ok(()) => {}
            Err(OpenFault::Failed) => return Err(SiteError::Disk),
            Err(OpenFault::NoMemory) => return Err(SiteError::NoMemory),
        }
        let listening = match &selection.bind {
            Some(address) => self.link.listen_on(address.as_str(), selection.port),
            None => self.link.listen(selection.port),
        };
        match listening {
            Ok(()) => self.open_journal(selection),
            Err(OpenFault::Failed) => Err(SiteError::Link),
            Err(OpenFault::NoMemory) => Err(SiteError::NoMemory),
        }
    }

    // Opens the journal, where one is wanted. One that can't be opened is a fault of the disk.
    fn open_journal(&mut self, selection: &Selection) -> Result<(), SiteError>
        ensures disk { IsErrOf result SiteError.Disk → Rose self.old.disk.faults self.new.disk.faults }
        ensures no_link { IsErrOf result SiteError.Link → ⊥ }
        ensures disk_faults { self.old.disk.faults ≤ self.new.disk.faults }
        ensures link_faults { self.new.link.faults ≡ self.old.link.faults }
        ensures reads { self.new.disk.reads ≡ self.old.disk.reads }
        ensures send_faults { self.new.link.send_faults ≡ self.old.link.send_faults }
        ensures numbers { self.new.link.next_number ≡ self.old.link.next_number }
        ensures selected { self.new.selected ≡ self.old.selected }
    {
        let Some(path) = &selection.journal else {
            return Ok(());
        };
        let viewers = self.viewers.take();
        match Journal::open(&self.rt, self.alloc, path.as_str(), viewers) {
            Ok(journal) if selection.port == 0 => return self.pull_into(selection, journal),
            Ok(journal) => self.link.tell_in(journal),
            Err(e) => {
                return match self.disk.refused(Trouble::new(Doing::Telling, e)) {
                    OpenFault::Failed => Err(SiteError::Disk),
                    OpenFault::NoMemory => Err(SiteError::NoMemory),
                };
            }
        }
        if let Some(since) = self.link.moment() {
            self.opening = Some(Opening::new(since));
        }
        Ok(())
    }

    // Where no port is wanted the journal tells what is pulled into the store.
    fn pull_into(&self, selection: &Selection, journal: Journal) -> Result<(), SiteError>
        ensures no_disk { IsErrOf result SiteError.Disk → ⊥ }
        ensures no_link { IsErrOf result SiteError.Link → ⊥ }
    {
        if let Some(pulls) = &self.pulls
            && let Ok(now) = Instant::now(&self.rt)
            && pulls
                .open(self.alloc, journal, selection.store.as_str(), now)
                .is_err()
        {
            return Err(SiteError::NoMemory);
        }
        Ok(())
    }

    /// A journal that is opened from now on for a store without a port tells in this one what is pulled.
    pub fn pull_in(&mut self, pulls: Pulls)
        ensures disk { self.new.disk ≡ self.old.disk }
        ensures link { self.new.link ≡ self.old.link }
        ensures selected { self.new.selected ≡ self.old.selected }
    {
        self.pulls = Some(pulls);
    }

    /// A journal that is opened from now on tells of these viewers too.
    pub fn tell_of(&mut self, viewers: Viewers)
        ensures disk { self.new.disk ≡ self.old.disk }
        ensures link { self.new.link ≡ self.old.link }
        ensures selected { self.new.selected ≡ self.old.selected }
    {
        self.viewers = Some(viewers);
    }

    /// What the system refused last of the disk.
    pub fn disk_trouble(&self) -> Option<Trouble>
        ensures { result ≡ self.now.disk.trouble }
    {
        self.disk.trouble()
    }

    /// What the system refused last of the link, but for what could not be sent.
    pub fn link_trouble(&self) -> Option<Trouble>
        ensures { result ≡ self.now.link.trouble }
    {
        self.link.trouble()
    }

    /// The origin ends: the last lines of the journal go out.
    pub fn end(&mut self)
        ensures disk { self.new.disk ≡ self.old.disk }
        ensures selected { self.new.selected ≡ self.old.selected }
        ensures link_faults { self.new.link.faults ≡ self.old.link.faults }
        ensures send_faults { self.new.link.send_faults ≡ self.old.link.send_faults }
        ensures numbers { self.new.link.next_number ≡ self.old.link.next_number }
    {
        if let Some(selection) = self.selected.selection() {
            self.link.note_end(selection);
        }
        if let Some(pulls) = &self.pulls {
            pulls.end(&self.rt);
        }
    }

    // Where a call of the disk failed, the journal tells what the system said of it.
    fn tell_fault(&mut self, failed: bool)
        ensures disk { self.new.disk ≡ self.old.disk }
        ensures selected { self.new.selected ≡ self.old.selected }
        ensures link_faults { self.new.link.faults ≡ self.old.link.faults }
        ensures send_faults { self.new.link.send_faults ≡ self.old.link.send_faults }
        ensures numbers { self.new.link.next_number ≡ self.old.link.next_number }
    {
        if failed && let Some(trouble) = self.disk.trouble() {
            self.link.note_fault(&trouble);
            if let Some(pulls) = &self.pulls {
                pulls.fault(&self.rt, &trouble);
            }
        }
    }

    // The store is open, and events are waited for.
    fn begin(&mut self)
        ensures disk { self.new.disk ≡ self.old.disk }
        ensures selected { self.new.selected ≡ self.old.selected }
        ensures link_faults { self.new.link.faults ≡ self.old.link.faults }
        ensures send_faults { self.new.link.send_faults ≡ self.old.link.send_faults }
        ensures numbers { self.new.link.next_number ≡ self.old.link.next_number }
    {
        if let Some(opening) = self.opening.take()
            && let Some(selection) = self.selected.selection()
            && let Some(now) = self.link.moment()
        {
            self.link.note_begin(selection, opening.opened(now));
        }
    }
}

impl<R: Files<File = File> + Net + Clock + Drop> Disk for RealSite<R> {
    ghost seen = { seen_as (λ s. counts_alone s.disk.reads s.disk.faults s.link.faults s.link.send_faults s.selected) };

    ghost contents_pass = { λ s. tt };

    ghost calls_told = { λ s. refl };

    ghost told = { λ s t c left. absurd left };

    ghost at_now = { λ s c left. absurd left };

    ghost now_at = { λ s c left. absurd left };

    ghost no_later = { λ s t c left. absurd left };

    fn size(&mut self, file: u32) -> Result<u64, Failed> {
        let found = self.disk.size(file);
        self.tell_fault(found.is_err());
        found
    }

    fn read_at(&mut self, file: u32, at: u64, into: &mut [u8]) -> Result<(), Failed> {
        if let Some(opening) = &mut self.opening {
            opening.note_read(at, into.len() as u64);
        }
        if let Some(pulls) = &self.pulls {
            pulls.note_read(at, into.len() as u64);
        }
        let read = self.disk.read_at(file, at, into);
        self.tell_fault(read.is_err());
        read
    }

    fn write_at(&mut self, file: u32, at: u64, bytes: &[u8]) -> Result<(), Failed> {
        let written = self.disk.write_at(file, at, bytes);
        // A gate behind the head of a file, which is one byte, is opened for an entry, whose record was written before.
        if bytes.len() > 1 {
            self.span = span_of(bytes);
        } else if written.is_ok() && bytes.len() == 1 && at > 0 {
            self.link.note_kept(self.span);
            if let Some(pulls) = &self.pulls {
                pulls.keep(self.span);
            }
        }
        self.tell_fault(written.is_err());
        written
    }

    fn sync(&mut self, file: u32) -> Result<(), Failed> {
        if let Some(opening) = &mut self.opening {
            opening.note_file();
        }
        if let Some(pulls) = &self.pulls {
            pulls.note_file();
        }
        let since = self.link.moment();
        let synced = self.disk.sync(file);
        self.link.note_sync(since);
        self.tell_fault(synced.is_err());
        synced
    }
}

impl<R: Files<File = File> + Net + Clock + Drop> Link for RealSite<R> {
    ghost seen = { seen_as (λ s. counts_alone s.disk.reads s.disk.faults s.link.faults s.link.send_faults s.selected) };

    ghost numbers = { λ s. s.link.next_number };

    ghost no_entry_later = { λ s. tt };

    fn next(&mut self) -> Result<Event, LinkError> {
        self.begin();
        self.link.next()
    }

    fn send(&mut self, conn: u64, bytes: &[u8]) -> Result<(), Failed> {
        self.link.send(conn, bytes)
    }

    fn send_both(&mut self, conn: u64, head: &[u8], tail: &[u8]) -> Result<(), Failed> {
        self.link.send_both(conn, head, tail)
    }

    fn close(&mut self, conn: u64) {
        self.link.close(conn);
    }
}

impl<R: Files<File = File> + Net + Clock + Drop> Site for RealSite<R> {
    ghost one = { record {
      view = λ s. refl;
      may_leave = λ s c. (λ left. left, λ left. left);
      left_at = λ s t c. (λ left. left, λ left. left);
    } };

    fn select(&mut self, selection: Selection) -> Result<(), SiteError> {
        match self.open(&selection) {
            Ok(()) => {
                self.selected.ask(Some(selection));
                Ok(())
            }
            Err(fault) => {
                self.disk.leave();
                self.selected.ask(None);
                Err(fault)
            }
        }
    }
}
