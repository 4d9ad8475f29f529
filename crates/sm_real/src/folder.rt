// A folder of files with numbers, locked against all others.
ghost use Rattle.std.specs.Prelude.{◌≡◌, ◌≢◌, ◌<◌, ◌^◌, [], true, is_ok, IfOk, OnOk, IsErr};
ghost use Rattle.sm_real.specs.AtRest.{IsAtRest, IsPending, IsSynced, IsUnread};

use crate::file_limit::{may_reach, past_limit};
use crate::reading::{Reading, fill};
use crate::{Doing, Trouble};
use std::alloc::{AllocError, Global};
use std::fs::{self, File, OpenOptions, TryLockError};
use std::io::{self, ErrorKind};
use std::os::fd::AsRawFd;
use std::os::unix::fs::{FileExt, MetadataExt};
use std::path::Path;
use std::rt::Files;

// Every size is below this.
const SIZES: u64 = 1 << 63;

// The file that was written last.
#[derive(Drop)]
struct Writing {
    file: u32,
    handle: File,
    // Nothing was written to it since it was last synced.
    synced: bool,
}

// What a name of the folder stands for.
#[derive(Clone, Copy, PartialEq, Eq)]
enum Named {
    Nothing,
    File,
    // A folder, a pipe or a device.
    Other,
}

/// An open folder. File k is named by k in eight digits, and `.seg`.
///
/// All files but the one that was written last are at rest: before another one is written, that one is synced. A sync of a file
/// leaves its times out (`fdatasync`), so that a byte written over another costs no entry of the system's journal. Once a sync has
/// failed nothing is written or synced any more, since the system may have dropped what it could not bring to rest.
#[derive(Drop)]
pub struct Folder {
    // It holds the lock for as long as it is open, and the files are named through it: wherever the folder is moved meanwhile, they stay
    // in it.
    handle: File,
    writing: Option<Writing>,
    // The file that was read last, where it isn't the one that was written last. Nothing of it is kept once it may change.
    reading: Option<Reading>,
    // No name came since the folder was last synced.
    named: bool,
    broken: bool,
    // A descriptor that is given up where no more files may be open, so that one that is to be written can be.
    reserve: Option<File>,
}

impl Folder {
    /// Opens a folder, which is made where it isn't there and may be, and locks it. It fails where another one has it open.
    pub fn open(
        files: &impl Files<File = File>,
        path: &str,
        may_make: bool,
    ) -> Result<Folder, Trouble> {
        if may_make && let Err(e) = make(files, path) {
            return Err(Trouble::new(Doing::Making, e));
        }
        match take(files, path) {
            Ok(handle) => Ok(Folder::new(handle)),
            Err(e) => Err(Trouble::new(Doing::Opening, e)),
        }
    }

    fn new(handle: File) -> Folder {
        Folder {
            handle,
            writing: None,
            reading: None,
            named: true,
            broken: false,
            reserve: None,
        }
    }

    fn name(&self, alloc: Global, file: u32) -> Result<String, AllocError> {
        format!(in alloc; "/proc/self/fd/{}/{:08}.seg", self.handle.as_raw_fd(), file)
    }

    /// How many bytes a file has; none where it isn't there.
    pub fn size(&self, files: &impl Files<File = File>, alloc: Global, file: u32) -> io::Result<u64>
        ensures { IfOk result (λ n. n < 2 ^ 63) }
    {
        let name = self.name(alloc, file)?;
        match fs::metadata(files, name.as_str()) {
            Ok(found) if found.len() < SIZES => Ok(found.len()),
            Ok(_) => Err(ErrorKind::FileTooLarge.into()),
            Err(e) if e.kind() == ErrorKind::NotFound => Ok(0),
            Err(e) => Err(e),
        }
    }

    /// Fills the buffer from this place of a file on, with 0 past its end. A file that is there stays open until another one is read.
    pub fn read_at(
        &mut self,
        files: &impl Files<File = File>,
        alloc: Global,
        file: u32,
        at: u64,
        into: &mut [u8],
    ) -> Result<(), Trouble> {
        if let Some(writing) = &self.writing
            && writing.file == file
        {
            return doing(Doing::Reading(file), fill(&writing.handle, at, into));
        }
        if let Some(reading) = &mut self.reading
            && reading.file == file
        {
            return doing(Doing::Reading(file), reading.fill(at, into));
        }
        // Where no more files may be open, the one that is given up makes room.
        self.reading = None;
        match self.look(files, alloc, file)? {
            Some(handle) => {
                let mut reading = Reading::new(alloc, file, handle);
                let filled = reading.fill(at, into);
                self.reading = Some(reading);
                doing(Doing::Reading(file), filled)
            }
            None => {
                into.fill(0);
                Ok(())
            }
        }
    }

    // What stands at a name.
    fn named(files: &impl Files<File = File>, name: &str) -> io::Result<Named> {
        match fs::metadata(files, name) {
            Ok(found) if found.is_file() => Ok(Named::File),
            Ok(_) => Ok(Named::Other),
            Err(e) if e.kind() == ErrorKind::NotFound => Ok(Named::Nothing),
            Err(e) => Err(e),
        }
    }

    // A file opened for reading, if it is there.
    fn look(
        &self,
        files: &impl Files<File = File>,
        alloc: Global,
        file: u32,
    ) -> Result<Option<File>, Trouble> {
        doing(Doing::OpeningFile(file), self.look_for(files, alloc, file))
    }

    fn look_for(
        &self,
        files: &impl Files<File = File>,
        alloc: Global,
        file: u32,
    ) -> io::Result<Option<File>> {
        let name = self.name(alloc, file)?;
        match Folder::named(files, name.as_str())? {
            Named::Nothing => Ok(None),
            Named::File => Ok(Some(File::open(files, name.as_str())?)),
            Named::Other => Err(no_file()),
        }
    }

    /// Writes these bytes from a place on. It fails where the file is shorter, as one is that was cut from outside, and where another one
    /// or none has its name.
    pub fn write_at(
        &mut self,
        files: &impl Files<File = File>,
        alloc: Global,
        file: u32,
        at: u64,
        bytes: &[u8],
    ) -> Result<(), Trouble>
        ensures pending { OnOk result (bytes.now ≢ [] → IsPending file self.new) }
        ensures unread { OnOk result (bytes.now ≢ [] → IsUnread file self.new) }
        ensures broken { self.old.broken ≡ true → bytes.now ≢ [] → IsErr result }
    {
        if bytes.is_empty() {
            return Ok(());
        }
        let mut writing = self.turn_to(files, alloc, file)?;
        let is_first = writing.synced;
        writing.synced = false;
        let stands = if is_first {
            self.test_name(files, alloc, &writing)
        } else {
            Ok(())
        };
        let written = match stands {
            Ok(()) => put(&writing.handle, at, bytes),
            Err(e) => Err(e),
        };
        self.writing = Some(writing);
        doing(Doing::Writing(file), written)
    }

    // Whether the file that is written still has its name. One that was removed or replaced from outside would take bytes that are lost with
    // its last descriptor.
    fn test_name(
        &self,
        files: &impl Files<File = File>,
        alloc: Global,
        writing: &Writing,
    ) -> io::Result<()> {
        let own = writing.handle.metadata()?;
        let name = self.name(alloc, writing.file)?;
        match fs::metadata(files, name.as_str()) {
            Ok(found) if found.ino() == own.ino() && found.dev() == own.dev() => Ok(()),
            Ok(_) => Err(replaced()),
            Err(e) if e.kind() == ErrorKind::NotFound => Err(replaced()),
            Err(e) => Err(e),
        }
    }

    // Gives up what was read of this file.
    fn unread(&mut self, file: u32)
        ensures unread { IsUnread file self.new }
        ensures writing { self.new.writing ≡ self.old.writing }
        ensures named { self.new.named ≡ self.old.named }
        ensures broken { self.new.broken ≡ self.old.broken }
    {
        if let Some(reading) = &self.reading
            && reading.file == file
        {
            self.reading = None;
        }
    }

    // The file that is to be written, open for it. It is made where it isn't there.
    fn turn_to(
        &mut self,
        files: &impl Files<File = File>,
        alloc: Global,
        file: u32,
    ) -> Result<Writing, Trouble>
        ensures file { IfOk result (λ writing. writing.file ≡ file) }
        ensures unread { OnOk result (IsUnread file self.new) }
        ensures broken { self.old.broken ≡ true → IsErr result }
    {
        if let Err(e) = self.test() {
            return Err(Trouble::new(Doing::Writing(file), e));
        }
        self.unread(file);
        if let Some(writing) = self.writing.take() {
            if writing.file == file {
                return Ok(writing);
            }
            if !writing.synced {
                doing(
                    Doing::Syncing(writing.file),
                    self.note(writing.handle.sync_data()),
                )?;
            }
        }
        let opened = self.open_or_make(files, alloc, file);
        let handle = doing(Doing::OpeningFile(file), opened)?;
        self.keep_reserve();
        Ok(Writing {
            file,
            handle,
            synced: true,
        })
    }

    // A file, open to be written. It is made where it isn't there.
    fn open_or_make(
        &mut self,
        files: &impl Files<File = File>,
        alloc: Global,
        file: u32,
    ) -> io::Result<File>
        ensures reading { self.new.reading ≡ self.old.reading }
        ensures writing { self.new.writing ≡ self.old.writing }
        ensures broken { self.new.broken ≡ self.old.broken }
    {
        let name = self.name(alloc, file)?;
        let mut how = OpenOptions::new();
        how.read(true).write(true);
        match Folder::named(files, name.as_str())? {
            Named::Nothing => {
                self.named = false;
                how.create(true);
            }
            Named::File => {}
            Named::Other => return Err(no_file()),
        }
        match how.open(files, name.as_str()) {
            Err(e) if e.raw_os_error() == Some(libc::EMFILE) && self.reserve.is_some() => {
                self.reserve = None;
                how.open(files, name.as_str())
            }
            opened => opened,
        }
    }

    // Takes a descriptor in advance, where there is one.
    fn keep_reserve(&mut self)
        ensures reading { self.new.reading ≡ self.old.reading }
        ensures writing { self.new.writing ≡ self.old.writing }
        ensures named { self.new.named ≡ self.old.named }
        ensures broken { self.new.broken ≡ self.old.broken }
    {
        if self.reserve.is_none()
            && let Ok(copy) = self.handle.try_clone()
        {
            self.reserve = Some(copy);
        }
    }

    // Whether anything may still be brought to rest.
    fn test(&self) -> io::Result<()>
        ensures { self.now.broken ≡ true → IsErr result }
    {
        if self.broken {
            return Err(io::Error::other("a sync failed before"));
        }
        Ok(())
    }

    // Takes note of what a sync answered.
    fn note(&mut self, synced: io::Result<()>) -> io::Result<()>
        ensures result { result ≡ synced }
        ensures broken { IsErr synced → self.new.broken ≡ true }
        ensures writing { self.new.writing ≡ self.old.writing }
        ensures reading { self.new.reading ≡ self.old.reading }
    {
        if synced.is_err() {
            self.broken = true;
        }
        synced
    }

    /// Brings a file to rest, and its name.
    pub fn sync(
        &mut self,
        files: &impl Files<File = File>,
        alloc: Global,
        file: u32,
    ) -> Result<(), Trouble>
        ensures at_rest { OnOk result (IsAtRest file self.new) }
        ensures unread { OnOk result (IsUnread file self.new) }
        ensures broken { self.old.broken ≡ true → IsErr result }
    {
        if let Err(e) = self.test() {
            return Err(Trouble::new(Doing::Syncing(file), e));
        }
        self.sync_bytes(files, alloc, file)?;
        match self.sync_names() {
            Ok(()) => Ok(()),
            Err(e) => Err(Trouble::new(Doing::Syncing(file), e)),
        }
    }

    fn sync_bytes(
        &mut self,
        files: &impl Files<File = File>,
        alloc: Global,
        file: u32,
    ) -> Result<(), Trouble>
        ensures synced { OnOk result (IsSynced file self.new) }
        ensures unread { OnOk result (IsUnread file self.new) }
    {
        self.unread(file);
        match self.writing.take() {
            Some(mut writing) if writing.file == file => {
                doing(Doing::Syncing(file), self.note(writing.handle.sync_data()))?;
                writing.synced = true;
                self.writing = Some(writing);
                Ok(())
            }
            writing => {
                self.writing = writing;
                match self.look(files, alloc, file)? {
                    Some(handle) => {
                        doing(Doing::Syncing(file), self.note(handle.sync_data()))?;
                        doing(Doing::Syncing(file), forget(&handle))
                    }
                    None => Ok(()),
                }
            }
        }
    }

    // Brings the names of the files to rest.
    fn sync_names(&mut self) -> io::Result<()>
        ensures named { OnOk result (self.new.named ≡ true) }
        ensures writing { self.new.writing ≡ self.old.writing }
        ensures reading { self.new.reading ≡ self.old.reading }
    {
        if !self.named {
            let synced = self.handle.sync_all();
            self.note(synced)?;
            self.named = true;
        }
        Ok(())
    }
}

// What was being done where the system refused it.
fn doing<T: Drop>(doing: Doing, done: io::Result<T>) -> Result<T, Trouble>
    ensures { is_ok result ≡ is_ok done }
{
    match done {
        Ok(value) => Ok(value),
        Err(e) => Err(Trouble::new(doing, e)),
    }
}

// What is said of a name that stands for something else than a file with bytes.
fn no_file() -> io::Error {
    io::Error::new(ErrorKind::InvalidInput, "it is no regular file")
}

// What is said of a file that has lost its name.
fn replaced() -> io::Error {
    io::Error::new(
        ErrorKind::NotFound,
        "it was removed or replaced from outside",
    )
}

// Opens a folder that is there, for itself alone.
fn take(files: &impl Files<File = File>, path: &str) -> io::Result<File> {
    let handle = File::open(files, path)?;
    if !handle.metadata()?.is_dir() {
        return Err(ErrorKind::NotADirectory.into());
    }
    lock(&handle)?;
    handle.sync_all()?;
    Ok(handle)
}

// Locks a folder. Another process may have it, or another disk of this one.
fn lock(handle: &File) -> io::Result<()> {
    match handle.try_lock() {
        Ok(()) => Ok(()),
        Err(TryLockError::WouldBlock) => Err(io::Error::new(
            ErrorKind::ResourceBusy,
            "another process has it",
        )),
        Err(TryLockError::Error(e)) => Err(e),
    }
}

// Makes a folder where it isn't there, and brings its own name to rest. The folder above one that is there may be closed to us.
fn make(files: &impl Files<File = File>, path: &str) -> io::Result<()> {
    let there = match fs::create_dir(files, path) {
        Ok(()) => false,
        Err(e) if e.kind() == ErrorKind::AlreadyExists => true,
        Err(e) => return Err(e),
    };
    match sync_above(files, path) {
        Err(e) if there && e.kind() == ErrorKind::PermissionDenied => Ok(()),
        synced => synced,
    }
}

// Brings the name of a folder to rest.
fn sync_above(files: &impl Files<File = File>, path: &str) -> io::Result<()> {
    match Path::new(path).parent() {
        Some(parent) if parent.as_str().is_empty() => File::open(files, ".")?.sync_all(),
        Some(parent) => File::open(files, parent)?.sync_all(),
        None => Ok(()),
    }
}

// Writes these bytes from a place of a file on, which isn't past its end.
fn put(handle: &File, at: u64, bytes: &[u8]) -> io::Result<()> {
    if handle.metadata()?.len() < at {
        return Err(io::Error::new(ErrorKind::UnexpectedEof, "it was cut from outside"));
    }
    if !may_reach(at.saturating_add(bytes.len() as u64)) {
        return Err(past_limit());
    }
    handle.write_all_at(bytes, at)
}

// Drops the system's copy of a file that was synced, so that what is read of it from now on is what the disk has. A sync
// that failed in an earlier process may have left the copy with bytes that never reached it.
fn forget(handle: &File) -> io::Result<()> {
    match libc::posix_fadvise(handle.as_raw_fd(), 0, 0, libc::POSIX_FADV_DONTNEED) {
        0 => Ok(()),
        error => Err(io::Error::from_raw_os_error(error)),
    }
}
