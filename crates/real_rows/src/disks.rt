//! Steps on a disk in a folder.

use crate::ends::{is_of_disk, on_disk};
use crate::places::Place;
use anyhow::{Result, bail};
use sm_real::FileDisk;
use sm_rows::scripts::is_quiet;
use sm_rows::tales::Tale;
use sm_rows::{Case, Line, Words};
use std::alloc::Global;
use std::fs::{self, File};
use std::rt::Files;

// Takes the folder, which is made.
fn choose<R: Files<File = File> + Drop>(
    alloc: Global,
    disk: &mut FileDisk<R>,
    place: Place,
    tale: &mut Tale,
) -> Result<()> {
    let store = place.store(alloc)?;
    match disk.choose(store.as_str(), true) {
        Ok(()) => tale.say("done"),
        Err(fault) => tale.say(format!(in alloc; "{fault}")?.as_str()),
    }
}

// Tells what the file of this name has.
fn held<R: Files + AllocGlobal>(
    rt: &R,
    alloc: Global,
    place: Place,
    name: &str,
    tale: &mut Tale,
) -> Result<()> {
    let store = place.store(alloc)?;
    let path = format!(in alloc; "{store}/{name}")?;
    tale.text(fs::read(rt, path.as_str())?.as_slice())
}

// A step: `choose` takes the folder of the row, `leave` gives it up, and `held` with a name tells what that file of it has; all others are
// those of any disk.
fn step<R: Files<File = File> + AllocGlobal + Drop>(
    rt: &R,
    alloc: Global,
    place: Place,
    disk: &mut FileDisk<R>,
    line: &Line,
    words: &Words,
    tale: &mut Tale,
) -> Result<()> {
    match line.key() {
        "choose" => choose(alloc, disk, place, tale),
        "leave" => {
            disk.leave();
            Ok(())
        }
        "held" => held(rt, alloc, place, words.text(0)?, tale),
        key if is_of_disk(key) => on_disk(alloc, disk, line, words, tale),
        _ => bail!("no such step"),
    }
}

/// What the steps of a row tell.
pub fn play<R: Files<File = File> + AllocGlobal + Copy + Drop>(
    rt: &R,
    alloc: Global,
    place: Place,
    case: &Case<'_>,
) -> Result<String> {
    let mut disk = FileDisk::new(*rt, alloc);
    let mut tale = Tale::new(alloc);
    for line in case.lines() {
        if !is_quiet(line.key()) {
            let words = case.words(alloc, line)?;
            step(rt, alloc, place, &mut disk, line, &words, &mut tale)?;
        }
    }
    Ok(tale.into_text())
}
