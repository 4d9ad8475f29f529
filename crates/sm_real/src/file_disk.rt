// The disk in a folder.
ghost use Rattle.std.specs.Prelude.{◌≡◌, ◌≤◌, false, refl, IsErrOf, None, Some, is_ok, is_some};
ghost use Rattle.sm_site.specs.Clauses.{Rose};
ghost use Rattle.sm_real.specs.Telling.{counts_alone, seen_as, unasked};

use crate::folder::Folder;
use crate::{Doing, OpenFault, Trouble};
use sm_site::{Disk, Failed};
use std::alloc::Global;
use std::fs::File;
use std::io::{Error as IoError, ErrorKind};
use std::rt::Files;

/// A disk in a folder of the system, which it has alone while it is there. File k of it is k in eight digits with `.seg`.
/// It tells no contents and no calls. Until a folder is chosen each call fails. What the system said of the last failure is kept for
/// people.
#[derive(Drop)]
pub struct FileDisk<R: Files<File = File> + Drop> {
    rt: R,
    alloc: Global,
    folder: Option<Folder>,
    reads: u64,
    faults: u64,
    trouble: Option<Trouble>,
}

impl<R: Files<File = File> + Drop> FileDisk<R> {
    /// Without a folder.
    pub fn new(rt: R, alloc: Global) -> FileDisk<R>
        ensures faults { result.faults ≡ 0 }
        ensures reads { result.reads ≡ 0 }
        ensures folder { is_some result.folder ≡ false }
        ensures trouble { result.trouble ≡ None }
    {
        FileDisk {
            rt,
            alloc,
            folder: None,
            reads: 0,
            faults: 0,
            trouble: None,
        }
    }

    /// Takes a folder in place of the one before. One that isn't there is made, where it may be; one that another disk has is refused.
    /// After a refusal there is none.
    pub fn choose(&mut self, store: &str, may_make: bool) -> Result<(), OpenFault>
        ensures chosen { is_some self.new.folder ≡ is_ok result }
        ensures failed { IsErrOf result OpenFault.Failed → Rose self.old.faults self.new.faults }
        ensures faults { self.old.faults ≤ self.new.faults }
        ensures reads { self.new.reads ≡ self.old.reads }
    {
        self.folder = None;
        match Folder::open(&self.rt, store, may_make) {
            Ok(folder) => {
                self.folder = Some(folder);
                Ok(())
            }
            Err(trouble) => Err(self.refused(trouble)),
        }
    }

    /// What a file that can't be opened comes to; a failure of the system is counted.
    pub fn refused(&mut self, trouble: Trouble) -> OpenFault
        ensures kept { result ≡ OpenFault.Failed → self.new.trouble ≡ Some trouble }
        ensures failed { result ≡ OpenFault.Failed → Rose self.old.faults self.new.faults }
        ensures faults { self.old.faults ≤ self.new.faults }
        ensures reads { self.new.reads ≡ self.old.reads }
        ensures folder { self.new.folder ≡ self.old.folder }
    {
        let fault = OpenFault::of(&trouble.error);
        if fault == OpenFault::Failed {
            self.fail(trouble);
        }
        fault
    }

    /// Gives the folder up.
    pub fn leave(&mut self)
        ensures folder { is_some self.new.folder ≡ false }
        ensures faults { self.new.faults ≡ self.old.faults }
        ensures reads { self.new.reads ≡ self.old.reads }
    {
        self.folder = None;
    }

    /// What the system refused last.
    pub fn trouble(&self) -> Option<Trouble>
        ensures { result ≡ self.now.trouble }
    {
        self.trouble
    }

    // A call failed, so the count rises.
    fn fail(&mut self, trouble: Trouble) -> Failed
        ensures kept { self.new.trouble ≡ Some trouble }
        ensures rose { Rose self.old.faults self.new.faults }
        ensures reads { self.new.reads ≡ self.old.reads }
        ensures folder { self.new.folder ≡ self.old.folder }
    {
        self.keep(trouble);
        self.faults = self.faults.saturating_add(1);
        Failed
    }

    // Keeps what the system said, and nothing else changes.
    fn keep(&mut self, trouble: Trouble)
        ensures kept { self.new.trouble ≡ Some trouble }
        ensures faults { self.new.faults ≡ self.old.faults }
        ensures reads { self.new.reads ≡ self.old.reads }
        ensures folder { self.new.folder ≡ self.old.folder }
    {
        self.trouble = Some(trouble);
    }
}

// No folder is chosen.
fn nowhere() -> IoError {
    IoError::new(ErrorKind::NotFound, "no folder is chosen")
}

impl<R: Files<File = File> + Drop> Disk for FileDisk<R> {
    ghost seen = { seen_as (λ d. counts_alone d.reads d.faults 0 0 unasked) };

    ghost contents_pass = { λ d. tt };

    ghost calls_told = { λ d. refl };

    ghost told = { λ d t c left. absurd left };

    ghost at_now = { λ d c left. absurd left };

    ghost now_at = { λ d c left. absurd left };

    ghost no_later = { λ d t c left. absurd left };

    fn size(&mut self, file: u32) -> Result<u64, Failed> {
        let found = match &self.folder {
            Some(folder) => folder.size(&self.rt, self.alloc, file),
            None => Err(nowhere()),
        };
        match found {
            Ok(size) => Ok(size),
            Err(e) => Err(self.fail(Trouble::new(Doing::Measuring(file), e))),
        }
    }

    fn read_at(&mut self, file: u32, at: u64, into: &mut [u8]) -> Result<(), Failed> {
        self.reads = self.reads.saturating_add(1);
        let read = match &mut self.folder {
            Some(folder) => folder.read_at(&self.rt, self.alloc, file, at, into),
            None => Err(Trouble::new(Doing::Reading(file), nowhere())),
        };
        match read {
            Ok(()) => Ok(()),
            Err(trouble) => Err(self.fail(trouble)),
        }
    }

    fn write_at(&mut self, file: u32, at: u64, bytes: &[u8]) -> Result<(), Failed> {
        let written = match &mut self.folder {
            Some(folder) => folder.write_at(&self.rt, self.alloc, file, at, bytes),
            None => Err(Trouble::new(Doing::Writing(file), nowhere())),
        };
        match written {
            Ok(()) => Ok(()),
            Err(trouble) => Err(self.fail(trouble)),
        }
    }

    fn sync(&mut self, file: u32) -> Result<(), Failed> {
        let synced = match &mut self.folder {
            Some(folder) => folder.sync(&self.rt, self.alloc, file),
            None => Err(Trouble::new(Doing::Syncing(file), nowhere())),
        };
        match synced {
            Ok(()) => Ok(()),
            Err(trouble) => Err(self.fail(trouble)),
        }
    }
}
