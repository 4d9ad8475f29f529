//! Plays each row in the files of `data/` on disks, logs, stores and origins in memory, and prints how what it gives differs from what
//! it has to give.
//!
//! A last line says how many rows there are. `sm_rows` says how a row is written.
#![tactic(auto)]

mod answers;
mod caches;
mod choices;
mod each;
mod ends;
mod faults;
mod files;
mod logs;
mod origins;
mod serving;
mod stage;
mod stores;
mod verdicts;

use anyhow::Result;
use sm_rows::{Caller, Case, run_pages};
use std::alloc::Global;

// In the order in which they are read: names and blocks of one are known in those behind it.
const PAGES: [&str; 10] = [
    "fixtures.txt",
    "ends.txt",
    "sites.txt",
    "files.txt",
    "logs.txt",
    "stores.txt",
    "caches.txt",
    "origins.txt",
    "serving.txt",
    "each.txt",
];

struct Rows;

impl Caller for Rows {
    fn answer(alloc: Global, case: &Case<'_>) -> Result<String> {
        match case.call() {
            "caches" => caches::play(alloc, case),
            "faults" => faults::told(alloc, case),
            "fronts" => each::play_fronts(alloc, case),
            "inputs" => ends::play_input(alloc, case),
            "long inputs" => ends::play_counted(alloc, case),
            "outputs" => ends::play_output(alloc, case),
            "single faults" => each::play_faults(alloc, case),
            "tracks" => ends::play_tracks(alloc, case),
            _ => stage::play(alloc, case),
        }
    }
}

fn main(rt: HostRuntime) -> Result<()> {
    run_pages::<Rows>(&rt, &PAGES)
}
