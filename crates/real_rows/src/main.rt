//! Plays each row in the files of `data/` on disks in a folder, on links and dials over sockets and on sites of both, and prints how what
//! it gives differs from what it has to give.
//!
//! A last line says how many rows there are. `sm_rows` says how a row is written. Peers and servers are other ends in this program.
#![tactic(auto)]

mod dials;
mod disks;
mod ends;
mod faults;
mod journals;
mod links;
mod names;
mod peers;
mod places;
mod sites;
mod tracks;

use crate::places::Place;
use anyhow::{Result, bail};
use sm_rows::{Case, Page};
use std::fs::{self, File};
use std::net::{Net, TcpListener, TcpStream};
use std::process;
use std::rt::Files;
use std::thread::Threads;
use std::time::Clock;

// In the order in which they are read: names and blocks of one are known in those behind it.
const PAGES: [&str; 5] = [
    "disks.txt",
    "links.txt",
    "sites.txt",
    "journals.txt",
    "dials.txt",
];

// What the call of a row gives.
fn answer<
    R: Files<File = File>
        + Net<Listener = TcpListener, Stream = TcpStream>
        + Clock
        + Threads
        + AllocGlobal
        + Copy
        + Drop,
>(rt: &R, place: Place, case: &Case<'_>) -> Result<String> {
    match case.call() {
        "dial" => dials::play(rt, rt.alloc(), place, case),
        "disk" => disks::play(rt, rt.alloc(), place, case),
        "faults" => faults::told(rt.alloc(), case),
        "link" => links::play(rt, rt.alloc(), place, case),
        "site" => sites::play(rt, rt.alloc(), place, case),
        "tracks" => tracks::play(rt, rt.alloc(), place, case),
        _ => bail!("no such call"),
    }
}

// How a row differs: a line to print, or nothing. No file of it is left.
fn difference<
    R: Files<File = File>
        + Net<Listener = TcpListener, Stream = TcpStream>
        + Clock
        + Threads
        + AllocGlobal
        + Copy
        + Drop,
>(rt: &R, place: Place, case: &Case<'_>) -> Result<Option<String>> {
    place.clear(rt)?;
    let gave = match answer(rt, place, case) {
        Ok(gave) => gave,
        Err(fault) => format!(in rt.alloc(); "{fault}")?,
    };
    place.clear(rt)?;
    Ok(case.difference(rt.alloc(), gave.as_str())?)
}

// Makes the calls of all rows of a file, and answers how many they are.
fn run<
    R: Files<File = File>
        + Net<Listener = TcpListener, Stream = TcpStream>
        + Clock
        + Threads
        + Print
        + AllocGlobal
        + Copy
        + Drop,
>(rt: &R, place: Place, page: &mut Page, name: &str) -> Result<usize> {
    let text = fs::read_to_string(rt, name)?;
    if let Err(fault) = page.read(rt.alloc(), text.as_str()) {
        println!(rt; "{name}: {fault}")?;
    }
    for at in 0..page.len() {
        let Some(case) = page.case(at) else {
            break;
        };
        if let Some(line) = difference(rt, place, &case)? {
            print!(rt; "{line}")?;
        }
    }
    Ok(page.len())
}

fn main(rt: HostRuntime) -> Result<()> {
    let place = Place::new(process::id(rt.process()));
    let mut page = Page::new(rt.alloc())?;
    let mut rows = 0usize;
    for name in PAGES {
        rows = rows.saturating_add(run(&rt, place, &mut page, name)?);
    }
    println!(rt; "{rows} rows")?;
    Ok(())
}
