//! The loop with a shelf beside it, over what a site brings.
ghost use Rattle.std.specs.Prelude.{◌≡◌};
ghost use Rattle.sm_site.specs.Memory.{site_seen};
ghost use Rattle.sm_origin.specs.Machine.{Machine};
ghost use Rattle.sm_serve.specs.Standing.{StandsOn};
ghost use Rattle.sm_serve.specs.Serving.{Known};

use crate::seats::{Seats, is_of_reader};
use anyhow::Result;
use sm_archive::Limits;
use sm_rows::scripts::{Cut, is_quiet, site};
use sm_rows::tales::Tale;
use sm_rows::{Case, Line, Words, disks};
use sm_serve::{Served, State, serve};
use sm_shelf::{ShelfWriter, make};
use sm_show::serve_shown;
use sm_site::MemorySite;
use std::alloc::Global;
use std::sync::Wait;
use std::thread::Threads;

// Far more turns than a row has events.
const TURNS: u64 = 100_000_000;

// Tells how the loop ended.
fn tell(alloc: Global, served: &Served, tale: &mut Tale) -> Result<()> {
    match served {
        Served::Done {
            turns,
            behind,
            short,
        } => tale.say(format!(in alloc; "turns {turns} behind {behind} short {short}")?.as_str()),
        Served::LinkFault => tale.say("link fault"),
        Served::NoMemory => tale.say("out of memory"),
    }
}

// Serves until nothing more comes, beside the shelf or without it, and tells how the loop ended, how many entries the store has then, and
// how many of these are published.
fn run<R: Wait>(
    rt: &R,
    alloc: Global,
    state: &mut State,
    site: &mut MemorySite,
    writer: &mut ShelfWriter,
    is_shown: bool,
    tale: &mut Tale,
) -> Result<()>
    requires stands { (m : Machine) × StandsOn site_seen m state.old.origin site.old }
    requires known { Known site_seen state.old site.old }
{
    let served = if is_shown {
        serve_shown(rt, site, state, writer, TURNS)
    } else {
        serve(site, state, TURNS)
    };
    tell(alloc, &served, tale)?;
    tale.count(state.archive().len())?;
    tale.count(writer.height())
}

// Opens the store of the site and serves.
fn start<R: Wait>(
    rt: &R,
    alloc: Global,
    site: &mut MemorySite,
    writer: &mut ShelfWriter,
    is_shown: bool,
    tale: &mut Tale,
) -> Result<()> {
    match State::start(alloc, site, Limits::standard()) {
        Ok(mut state) => run(rt, alloc, &mut state, site, writer, is_shown, tale),
        Err(fault) => tale.say(format!(in alloc; "{fault}")?.as_str()),
    }
}

// A step: `serve`, which opens the store and serves what comes beside the shelf, `serve-alone`, which does so without it, a step of a reader,
// or one on the site.
fn step<R: Threads + Wait>(
    rt: &R,
    alloc: Global,
    site: &mut MemorySite,
    writer: &mut ShelfWriter,
    seats: &mut Seats,
    line: &Line,
    words: &Words,
    tale: &mut Tale,
) -> Result<()> {
    if is_of_reader(line.key()) {
        return seats.step(rt, line, words, tale);
    }
    match line.key() {
        "serve" => start(rt, alloc, site, writer, true, tale),
        "serve-alone" => start(rt, alloc, site, writer, false, tale),
        _ => disks::step(alloc, site, line, words, tale),
    }
}

// Makes the step of a line, if it is one.
fn part<R: Threads + Wait>(
    rt: &R,
    alloc: Global,
    case: &Case<'_>,
    site: &mut MemorySite,
    writer: &mut ShelfWriter,
    seats: &mut Seats,
    line: &Line,
    tale: &mut Tale,
) -> Result<()> {
    if is_quiet(line.key()) {
        return Ok(());
    }
    let words = case.words(alloc, line)?;
    step(rt, alloc, site, writer, seats, line, &words, tale)
}

fn steps<R: Threads + Wait>(
    rt: &R,
    alloc: Global,
    case: &Case<'_>,
    site: &mut MemorySite,
    writer: &mut ShelfWriter,
    seats: &mut Seats,
    tale: &mut Tale,
) -> Result<()> {
    for line in case.lines() {
        part(rt, alloc, case, site, writer, seats, line, tale)?;
    }
    Ok(())
}

// Makes a shelf with one reader, and makes the steps of the row.
fn beside_shelf<R: Threads + Wait>(
    rt: &R,
    alloc: Global,
    case: &Case<'_>,
    site: &mut MemorySite,
    tale: &mut Tale,
) -> Result<()> {
    let (mut writer, readers) = make(rt, alloc, 1)?;
    let mut seats = Seats::new(alloc, readers);
    let played = steps(rt, alloc, case, site, &mut writer, &mut seats, tale);
    writer.end(rt);
    played
}

/// Makes a site that brings what the row says, and a shelf with one reader, and makes the steps of the row.
pub fn play<R: Threads + Wait>(
    rt: &R,
    alloc: Global,
    case: &Case<'_>,
    tale: &mut Tale,
) -> Result<()> {
    let mut site = site(alloc, case, Cut::Of(65_536))?;
    beside_shelf(rt, alloc, case, &mut site, tale)
}
