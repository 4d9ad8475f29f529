//! Runs what each row of the files of `data/` says, commands, plays and exchanges, over ends, sites, dials and tracks in memory, and
//! prints how what they give differs from what they have to give.
//!
//! A last line says how many rows there are. `sm_rows` says how a row is written.
#![tactic(auto)]

mod commands;
mod edges;
mod ends;
mod exchanges;
mod faults;
mod places;
mod plays;
mod stage;
mod worlds;

use anyhow::Result;
use sm_rows::tales::Tale;
use sm_rows::{Caller, Case, run_pages};
use std::alloc::Global;

// In the order in which they are read: names and blocks of one are known in those behind it.
const PAGES: [&str; 13] = [
    "fixtures.txt",
    "exchanges.txt",
    "words.txt",
    "picks.txt",
    "causes.txt",
    "limits.txt",
    "pushes.txt",
    "plays.txt",
    "stores.txt",
    "exports.txt",
    "relays.txt",
    "rehearsals.txt",
    "faults.txt",
];

// Plays a row, and tells what it gives.
fn play(alloc: Global, case: &Case<'_>, tale: &mut Tale) -> Result<()> {
    match case.call() {
        "edges" => edges::play(alloc, case, tale),
        "stops" => edges::play_stops(alloc, case, tale),
        "fronts" => commands::play_fronts(alloc, case, tale),
        "exchanges" => exchanges::play(alloc, case, tale),
        "faults" => faults::tell(alloc, case, tale),
        "fronts of replies" => exchanges::play_fronts(alloc, case, tale),
        "plays" => plays::play(alloc, case, tale),
        "worlds" => worlds::play(alloc, case, tale),
        _ => stage::play(alloc, case, tale),
    }
}

struct Rows;

impl Caller for Rows {
    fn answer(alloc: Global, case: &Case<'_>) -> Result<String> {
        let mut tale = Tale::new(alloc);
        play(alloc, case, &mut tale)?;
        Ok(tale.into_text())
    }
}

fn main(rt: HostRuntime) -> Result<()> {
    run_pages::<Rows>(&rt, &PAGES)
}
