//! What scripts take the time of, by its first word:
//!
//!     smooth_bench fragment read|cut|share|write|copy|push|bytes SAMPLES SIZE REPEATS
//!     smooth_bench connection copy|counted|chunked|heads SIZE REPEATS
//!     smooth_bench catalog all TIMES GAP WRITES READS ORDER
//!     smooth_bench archive copy|keep COUNT SIZE REPEATS
//!     smooth_bench shelf make|put|copy TIMES SIZE
//!     smooth_bench shelf ask|act TIMES SIZE REPEATS
//!     smooth_bench shelf list TIMES GAP ROUNDS ASKS
//!
//! Without words it does a little of each.
#![tactic(auto)]

mod acting;
mod archive;
mod catalog;
mod connection;
mod fragment;
mod shelves;
mod values;

use anyhow::{Result, bail};
use std::alloc::Global;
use std::env;
use std::sync::Wait;

// What is done without words.
const A_LITTLE: [(&str, &str, [u32; 5]); 12] = [
    ("fragment", "read", [3, 5, 2, 0, 0]),
    ("fragment", "cut", [3, 5, 2, 0, 0]),
    ("fragment", "push", [3, 5, 2, 0, 0]),
    ("connection", "chunked", [131_072, 2, 0, 0, 0]),
    ("catalog", "all", [3, 1, 1, 1, 1]),
    ("archive", "keep", [3, 5, 1, 0, 0]),
    ("shelf", "make", [3, 5, 2, 2, 0]),
    ("shelf", "put", [3, 5, 2, 2, 0]),
    ("shelf", "copy", [3, 5, 2, 2, 0]),
    ("shelf", "ask", [3, 5, 2, 2, 0]),
    ("shelf", "list", [3, 5, 2, 2, 0]),
    ("shelf", "act", [3, 5, 2, 2, 0]),
];

// What a bench of shelves counts.
fn shelved<R: Wait>(rt: &R, alloc: Global, mode: &str, numbers: [u32; 5]) -> Result<u64> {
    let [times, second, repeats, asks, _] = numbers;
    match mode {
        "make" => shelves::make_all(alloc, times, second),
        "put" => shelves::put(rt, alloc, times, second, true),
        "copy" => shelves::put(rt, alloc, times, second, false),
        "ask" => shelves::ask(rt, alloc, times, second, repeats),
        "list" => shelves::list(rt, alloc, times, second, repeats, asks),
        "act" => acting::act(alloc, times, second, repeats),
        _ => bail!("no such bench"),
    }
}

// The line that a bench prints.
fn done<R: Wait>(
    rt: &R,
    alloc: Global,
    sort: &str,
    mode: &str,
    numbers: [u32; 5],
) -> Result<String> {
    let count = match sort {
        "shelf" => shelved(rt, alloc, mode, numbers)?,
        "fragment" => fragment::run(alloc, mode, numbers)?,
        "connection" => connection::run(alloc, mode, numbers)?,
        "archive" => archive::run(alloc, mode, numbers)?,
        "catalog" => {
            let (found, length, streams) = catalog::run(alloc, numbers)?;
            return Ok(format!(in alloc; "found {found} manifest {length} streams {streams}")?);
        }
        _ => bail!("no such bench"),
    };
    Ok(format!(in alloc; "{count}")?)
}

fn main(rt: HostRuntime) -> Result<()> {
    let alloc = rt.alloc();
    let mut words = env::args(&rt)?.skip(1);
    let Some(sort) = words.next() else {
        for (sort, mode, numbers) in A_LITTLE {
            let line = done(&rt, alloc, sort, mode, numbers)?;
            println!(rt; "{sort} {mode} {line}")?;
        }
        return Ok(());
    };
    let mode = words.next().unwrap_or(String::new(alloc));
    let mut numbers = [0u32; 5];
    for number in numbers.iter_mut() {
        if let Some(word) = words.next() {
            *number = word.as_str().parse::<u32>()?;
        }
    }
    println!(rt;
        "{}",
        done(&rt, alloc, sort.as_str(), mode.as_str(), numbers)?
    )?;
    Ok(())
}
