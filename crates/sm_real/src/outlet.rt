// Where the lines of a journal go: a file, or a pipe that somebody reads.

use crate::file_limit::{may_reach, past_limit};
use crate::outgoing::{Outgoing, copy};
use memchr::memchr_iter;
use mio::unix::SourceFd;
use mio::{Events, Interest, Poll, Token};
use std::alloc::{AllocError, Global};
use std::fs::{File, OpenOptions};
use std::io::{self, ErrorKind, Write};
use std::net::Net;
use std::os::fd::AsRawFd;
use std::rt::Files;
use std::time::Duration;

// How much is written to a pipe at once: one that has room at all takes as many without waiting (POSIX, PIPE_BUF).
const AT_ONCE: usize = 4_096;

// How many such pieces are written in one go.
const PIECES: u32 = 64;

// So many bytes are worth a write. A pipe has room for no more of them as a rule, and a file takes a byte at the less cost the more
// come at once.
const PIPE_FULL: usize = 65_536;

const FILE_FULL: usize = 262_144;

/// What a line begins with that says how many were lost.
pub const LOST: &[u8] = b"lost ";

// What says whether a pipe has room.
#[derive(Drop)]
struct Room {
    poll: Poll,
    events: Events,
}

/// Lines that wait for a file. A write never waits: a file takes what it is given, and a pipe is asked for room before each piece.
#[derive(Drop)]
pub struct Outlet {
    alloc: Global,
    file: File,
    // There is none for a file on a disk.
    room: Option<Room>,
    // What a pipe hasn't taken yet.
    lines: Outgoing,
    // The line that each file begins with, if there is one yet.
    first: Vec<u8>,
    // The file that was cut is another one for its readers: whether this one has bytes of ours.
    begun: bool,
    // The last line was written in part.
    torn: bool,
}

impl Outlet {
    /// Goes on at the end of this file, which is made where it isn't there.
    pub fn open(
        rt: &(impl Files<File = File> + Net),
        alloc: Global,
        path: &str,
    ) -> io::Result<Outlet> {
        let file = open(rt, path)?;
        Ok(Outlet {
            alloc,
            room: Room::of(rt, alloc, &file)?,
            file,
            lines: Outgoing::new(alloc),
            first: Vec::new(alloc),
            begun: false,
            torn: false,
        })
    }

    /// A file that is cut to nothing from now on begins with this line again.
    pub fn begin_with(&mut self, line: &[u8]) -> Result<(), AllocError> {
        self.first = copy(self.alloc, line)?;
        Ok(())
    }

    /// How many bytes a pipe hasn't taken yet.
    pub fn len(&self) -> usize {
        self.lines.len()
    }

    /// How many bytes are worth a write at once, without waiting for more.
    pub fn enough(&self) -> usize {
        match &self.room {
            Some(_) => PIPE_FULL,
            None => FILE_FULL,
        }
    }

    /// Writes whole lines behind those that wait, or as much of all as is taken at once, and says how many lines were lost.
    pub fn write(&mut self, lines: &[u8]) -> u64 {
        if self.room.is_none() {
            let (gone, ended) = self.append(lines);
            return match ended {
                Ok(()) => 0,
                Err(_) => count(lines.get(gone..).unwrap_or(b"")),
            };
        }
        if self.lines.push(lines).is_err() {
            return count(lines);
        }
        self.write_pieces()
    }

    // Writes pieces to a pipe while it takes them. Where one fails all that waits is lost: so many lines.
    fn write_pieces(&mut self) -> u64 {
        for _ in 0..PIECES {
            match self.write_piece() {
                Ok(true) => {}
                Ok(false) => return 0,
                Err(_) => {
                    let lost = count(self.lines.as_slice());
                    self.lines.clear(self.alloc);
                    return lost;
                }
            }
        }
        0
    }

    // Writes them to a file, which takes what it is given, or has no room: how many bytes have gone, up to the end or a failure.
    fn append(&mut self, lines: &[u8]) -> (usize, io::Result<()>) {
        if lines.is_empty() {
            return (0, Ok(()));
        }
        if let Err(fault) = self.prepare(lines.len()) {
            return (0, Err(fault));
        }
        let (gone, ended) = put(&self.file, lines);
        self.begun = self.begun || gone > 0;
        if gone > 0 && gone <= lines.len() {
            self.torn = lines[gone - 1] != b'\n';
        }
        (gone, ended)
    }

    // Sees that a file takes so many bytes more, behind a whole line: its first one, where it was cut to nothing, or the one that was
    // written in part, which ends here.
    fn prepare(&mut self, more: usize) -> io::Result<()> {
        let length = self.file.metadata()?.len();
        let more = (more as u64).saturating_add(self.first.len() as u64);
        if !may_reach(length.saturating_add(more)) {
            return Err(past_limit());
        }
        if length == 0 && self.begun {
            self.torn = false;
            (&self.file).write_all(&self.first)?;
        }
        if self.torn {
            (&self.file).write_all(b"\n")?;
            self.torn = false;
        }
        Ok(())
    }

    // Writes one piece to a pipe, and says whether there may be more to write.
    fn write_piece(&mut self) -> io::Result<bool> {
        let count = self.lines.len().min(AT_ONCE);
        if count == 0 {
            return Ok(false);
        }
        let fd = self.file.as_raw_fd();
        let has_room = match &mut self.room {
            Some(room) => room.is_there(&fd),
            None => false,
        };
        if !has_room {
            return Ok(false);
        }
        match (&self.file).write(&self.lines.as_slice()[..count]) {
            Ok(taken) => self.lines.pass(self.alloc, taken.min(count)),
            Err(fault) if fault.kind() == ErrorKind::Interrupted => {}
            Err(fault) => return Err(fault),
        }
        Ok(true)
    }
}

// Writes these bytes to a file: how many have gone, up to the end or a failure.
fn put(mut file: &File, bytes: &[u8]) -> (usize, io::Result<()>) {
    let mut gone = 0usize;
    'writing: for _ in 0..u64::MAX {
        let rest = bytes.get(gone..).unwrap_or(b"");
        if rest.is_empty() {
            break;
        }
        match file.write(rest) {
            Ok(0) => return (gone, Err(ErrorKind::WriteZero.into())),
            Ok(taken) => gone = gone.saturating_add(taken),
            Err(fault) if fault.kind() == ErrorKind::Interrupted => {}
            Err(fault) => return (gone, Err(fault)),
        }
    }
    (gone, Ok(()))
}

// How many lines end in these bytes. One that says how many were lost stands for those.
fn count(lines: &[u8]) -> u64 {
    let mut counted = 0u64;
    let mut from = 0usize;
    for end in memchr_iter(b'\n', lines) {
        let line = lines.get(from..end).unwrap_or(b"");
        counted = counted.saturating_add(lost_in(line).unwrap_or(1));
        from = end.saturating_add(1);
    }
    counted
}

// How many lines this one says were lost, if it says that.
fn lost_in(line: &[u8]) -> Option<u64> {
    let number = line.strip_prefix(LOST)?;
    str::from_utf8(number).ok()?.parse::<u64>().ok()
}

// A pipe is opened for reading too: so it opens where nobody reads it yet, and stays where its reader goes away.
fn open(files: &impl Files<File = File>, path: &str) -> io::Result<File> {
    let mut both = OpenOptions::new();
    both.read(true).append(true).create(true);
    match both.open(files, path) {
        Ok(file) => Ok(file),
        Err(_) => {
            let mut alone = OpenOptions::new();
            alone.append(true).create(true);
            alone.open(files, path)
        }
    }
}

impl Room {
    // None for what the system can't be asked about, as a file on a disk.
    fn of(net: &impl Net, alloc: Global, file: &File) -> io::Result<Option<Room>> {
        let poll = Poll::new(net)?;
        let fd = file.as_raw_fd();
        let asked = poll
            .registry()
            .register(&mut SourceFd(&fd), Token(0), Interest::WRITABLE);
        if asked.is_err() {
            return Ok(None);
        }
        let events = Events::with_capacity(alloc, 1)?;
        Ok(Some(Room { poll, events }))
    }

    // Whether the pipe takes a piece now. Registering it again has the system say so again.
    fn is_there(&mut self, fd: &i32) -> bool {
        let again = self
            .poll
            .registry()
            .reregister(&mut SourceFd(fd), Token(0), Interest::WRITABLE);
        if again.is_err()
            || self
                .poll
                .poll(&mut self.events, Some(Duration::ZERO))
                .is_err()
        {
            return false;
        }
        for readiness in &self.events {
            if readiness.is_writable() {
                return true;
            }
        }
        false
    }
}
