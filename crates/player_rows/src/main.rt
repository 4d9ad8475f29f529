//! Plays each row in the files of `data/`, on shelves whose readers stand in threads of their own, players over wires in memory and the top
//! call with players, and prints how what it gives differs from what it has to give.
//!
//! A last line says how many rows there are. `sm_rows` says how a row is written.
#![tactic(auto)]

mod asking;
mod counting;
mod filling;
mod meeting;
mod playing;
mod publishing;
mod running;
mod seats;
mod serving;
mod shelves;
mod values;
mod watching;

use anyhow::{Result, bail};
use sm_rows::tales::Tale;
use sm_rows::{Case, Page};
use std::alloc::Global;
use std::fs;
use std::rt::Files;
use std::sync::Wait;
use std::thread::Threads;

// In the order in which they are read: names and blocks of one are known in those behind it.
const PAGES: [&str; 5] = [
    "fixtures.txt",
    "shelves.txt",
    "shown.txt",
    "players.txt",
    "runs.txt",
];

// Plays a row, and tells what it gives.
fn play<R: Threads + Wait + Copy + Drop>(
    rt: &R,
    alloc: Global,
    case: &Case<'_>,
    tale: &mut Tale,
) -> Result<()> {
    match case.call() {
        "shelf" => shelves::play(rt, alloc, case, tale),
        "shown" => serving::play(rt, alloc, case, tale),
        "player" => playing::play(rt, alloc, case, tale),
        "two players" => playing::play_two(rt, alloc, case, tale),
        "run" => running::play(rt, alloc, case, tale),
        _ => bail!("no such call"),
    }
}

// What a row gives: what it tells, or the fault at which it ends.
fn answer<R: Threads + Wait + Copy + Drop>(
    rt: &R,
    alloc: Global,
    case: &Case<'_>,
) -> Result<String> {
    let mut tale = Tale::new(alloc);
    match play(rt, alloc, case, &mut tale) {
        Ok(()) => Ok(tale.into_text()),
        Err(fault) => Ok(format!(in alloc; "{fault}")?),
    }
}

// How a row differs: a line to print, or nothing.
fn difference<R: Threads + Wait + Copy + Drop>(
    rt: &R,
    alloc: Global,
    case: &Case<'_>,
) -> Result<Option<String>> {
    let gave = answer(rt, alloc, case)?;
    Ok(case.difference(alloc, gave.as_str())?)
}

// Prints how a row differs, if it does.
fn show<R: Threads + Wait + Print + AllocGlobal + Copy + Drop>(
    rt: &R,
    case: &Case<'_>,
) -> Result<()> {
    if let Some(line) = difference(rt, rt.alloc(), case)? {
        print!(rt; "{line}")?;
    }
    Ok(())
}

// Reads the rows of a file, and prints what is wrong with them.
fn read<R: Files + Print + AllocGlobal>(rt: &R, page: &mut Page, name: &str) -> Result<()> {
    let text = fs::read_to_string(rt, name)?;
    if let Err(fault) = page.read(rt.alloc(), text.as_str()) {
        println!(rt; "{name}: {fault}")?;
    }
    Ok(())
}

// Makes the calls of all rows of a file, and answers how many they are.
fn run<R: Threads + Wait + Files + Print + AllocGlobal + Copy + Drop>(
    rt: &R,
    page: &mut Page,
    name: &str,
) -> Result<usize> {
    read(rt, page, name)?;
    for at in 0..page.len() {
        let Some(case) = page.case(at) else {
            break;
        };
        show(rt, &case)?;
    }
    Ok(page.len())
}

fn main(rt: HostRuntime) -> Result<()> {
    let mut page = Page::new(rt.alloc())?;
    let mut rows = 0usize;
    for name in PAGES {
        rows = rows.saturating_add(run(&rt, &mut page, name)?);
    }
    println!(rt; "{rows} rows")?;
    Ok(())
}
