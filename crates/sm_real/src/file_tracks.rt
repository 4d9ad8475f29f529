// Tracks in files.
ghost use Rattle.std.specs.Prelude.{◌≡◌, None};

use crate::file_limit::{may_reach, past_limit};
use sm_ends::{Failed, Tracks};
use std::alloc::Global;
use std::fs::{File, OpenOptions};
use std::io::{self, Write};
use std::rt::Files;

/// The tracks of a play in files of the current folder: track k is appended to `track-k.frag`, which is made where it isn't there.
/// What was added of bytes that didn't all fit is cut off again. They tell nothing of what the files hold.
#[derive(Drop)]
pub struct FileTracks<R: Files<File = File> + Drop> {
    rt: R,
    alloc: Global,
    // The one that was appended to last.
    last: Option<Track>,
    faults: u64,
}

#[derive(Drop)]
struct Track {
    number: u32,
    handle: File,
}

impl<R: Files<File = File> + Drop> FileTracks<R> {
    /// Without any file yet.
    pub fn new(rt: R, alloc: Global) -> FileTracks<R>
        ensures { result.faults ≡ 0 }
    {
        FileTracks {
            rt,
            alloc,
            last: None,
            faults: 0,
        }
    }

    // A file that bytes can be added to.
    fn open(&mut self, number: u32) -> io::Result<Track>
        ensures faults { self.new.faults ≡ self.old.faults }
    {
        match self.last.take() {
            Some(track) if track.number == number => return Ok(track),
            _ => {}
        }
        let name = format!(in self.alloc; "track-{number}.frag")?;
        let mut how = OpenOptions::new();
        how.append(true).create(true);
        let handle = how.open(&self.rt, name.as_str())?;
        Ok(Track { number, handle })
    }

    fn add(&mut self, number: u32, bytes: &[u8]) -> io::Result<()>
        ensures faults { self.new.faults ≡ self.old.faults }
    {
        let track = self.open(number)?;
        let length = track.handle.metadata()?.len();
        if !may_reach(length.saturating_add(bytes.len() as u64)) {
            return Err(past_limit());
        }
        let added = (&track.handle).write_all(bytes);
        if added.is_err() {
            track.handle.set_len(length)?;
        }
        self.last = Some(track);
        added
    }
}

impl<R: Files<File = File> + Drop> Tracks for FileTracks<R> {
    ghost held = { λ _ _. None };

    ghost faults = { λ t. t.faults };

    fn append(&mut self, track: u32, bytes: &[u8]) -> Result<(), Failed> {
        match self.add(track, bytes) {
            Ok(()) => Ok(()),
            Err(_) => {
                self.faults = self.faults.saturating_add(1);
                Err(Failed)
            }
        }
    }
}
