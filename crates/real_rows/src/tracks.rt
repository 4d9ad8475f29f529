//! Steps on tracks in files.

use crate::places::Place;
use anyhow::{Result, bail};
use sm_ends::{Failed, Tracks};
use sm_real::FileTracks;
use sm_rows::scripts::is_quiet;
use sm_rows::tales::Tale;
use sm_rows::{Case, Line, Words};
use std::alloc::Global;
use std::fs::{self, File};
use std::rt::Files;

fn append<T: Tracks>(tracks: &mut T, track: u32, bytes: &[u8]) -> &'static str {
    match tracks.append(track, bytes) {
        Ok(()) => "done",
        Err(Failed) => "failed",
    }
}

// Tells what the file of a track has, which is removed.
fn held<R: Files + AllocGlobal>(rt: &R, alloc: Global, track: u32, tale: &mut Tale) -> Result<()> {
    let name = format!(in alloc; "track-{track}.frag")?;
    let bytes = fs::read(rt, name.as_str())?;
    fs::remove_file(rt, name.as_str())?;
    tale.text(bytes.as_slice())
}

// A step, with a number below 16: `append` with bytes, and `held`, which tells what was appended and removes it.
fn step<R: Files<File = File> + AllocGlobal + Drop>(
    rt: &R,
    alloc: Global,
    place: Place,
    tracks: &mut FileTracks<R>,
    line: &Line,
    words: &Words,
    tale: &mut Tale,
) -> Result<()> {
    let track = place.track(words.short(0)?);
    match line.key() {
        "append" => {
            let bytes = words.bytes(alloc, 1)?;
            tale.say(append(tracks, track, bytes.as_slice()))
        }
        "held" => held(rt, alloc, track, tale),
        _ => bail!("no such step"),
    }
}

/// What the steps of a row tell.
pub fn play<R: Files<File = File> + AllocGlobal + Copy + Drop>(
    rt: &R,
    alloc: Global,
    place: Place,
    case: &Case<'_>,
) -> Result<String> {
    let mut tracks = FileTracks::new(*rt, alloc);
    let mut tale = Tale::new(alloc);
    for line in case.lines() {
        if !is_quiet(line.key()) {
            let words = case.words(alloc, line)?;
            step(rt, alloc, place, &mut tracks, line, &words, &mut tale)?;
        }
    }
    Ok(tale.into_text())
}
