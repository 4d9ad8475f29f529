//! Readers that ask for the manifest again and again, in threads of their own, while the writer publishes.
use anyhow::{Result, bail};
use sm_model::{Act, NoMemory, Text};
use sm_shelf::{ShelfReader, Shown};
use std::alloc::Global;
use std::thread;
use std::thread::{JoinHandle, Threads};

/// How a reader's watch ended.
#[derive(Clone, Copy, Debug, PartialEq, Eq)]
pub enum Sight {
    /// It saw all times, and never fewer than it had seen.
    Rose,
    /// A later manifest listed fewer.
    Fell,
    /// It wasn't shown all times, or had no memory.
    Lost,
}

/// The reader, and how its watch ended.
#[derive(Drop)]
pub struct Watched {
    pub reader: ShelfReader,
    pub sight: Sight,
}

// How many elements `c` a reply has. Each is a time where no two times make a run.
fn count(alloc: Global, text: &Text) -> Result<u64, NoMemory> {
    let bytes = text.join(alloc)?;
    let mut count = 0u64;
    for part in bytes.as_slice().windows(3) {
        if part == b"<c ".as_slice() {
            count = count.saturating_add(1);
        }
    }
    Ok(count)
}

// How many times a reader is shown now.
fn look(alloc: Global, reader: &mut ShelfReader) -> Option<u64> {
    match reader.answer(alloc, &Act::Manifest) {
        Shown::Reply(text) => match count(alloc, &text) {
            Ok(count) => Some(count),
            Err(NoMemory) => None,
        },
        Shown::Forward | Shown::NoMemory => None,
    }
}

fn watch(alloc: Global, reader: &mut ShelfReader, times: u64) -> Sight {
    let mut seen = 0;
    for _ in 0..50_000_000u32 {
        let Some(now) = look(alloc, reader) else {
            return Sight::Lost;
        };
        if now < seen {
            return Sight::Fell;
        }
        seen = now;
        if seen >= times {
            return Sight::Rose;
        }
        thread::yield_now();
    }
    Sight::Lost
}

fn end_of_watch(alloc: Global, reader: ShelfReader, times: u64) -> Watched {
    let mut reader = reader;
    let sight = watch(alloc, &mut reader, times);
    Watched { reader, sight }
}

/// Lets a reader watch until it is shown so many times.
pub fn start<R: Threads>(
    rt: &R,
    alloc: Global,
    reader: ShelfReader,
    times: u64,
) -> Result<JoinHandle<Watched>> {
    match thread::spawn(rt, move || end_of_watch(alloc, reader, times)) {
        Ok(child) => Ok(child),
        Err(_) => bail!("no thread"),
    }
}
