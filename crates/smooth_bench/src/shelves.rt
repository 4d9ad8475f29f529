//! Fragments published on a shelf, and asked for again and again.
ghost use Rattle.std.specs.Prelude.{IfOk};
ghost use Rattle.sm_shelf.specs.Laying.{IsValidEntry};

use crate::values::{TRACKS, asked, block, channel, fragment, start_of};
use anyhow::{Result, bail};
use sm_model::{Act, Address, Entry, Part};
use sm_shelf::{Readers, ShelfReader, ShelfWriter, Shown, make};
use sm_site::{MemorySite, Numbers, Script};
use std::alloc::Global;
use std::sync::Wait;

fn entry(alloc: Global, at: (&str, u32), time: u64, bytes: &Part, is_shared: bool) -> Result<Entry>
    ensures { IfOk result IsValidEntry }
{
    Ok(Entry::Keep(fragment(alloc, at, time, bytes, is_shared)?))
}

/// Makes the fragments of so many times, each of this size, and gives how many they are.
pub fn make_all(alloc: Global, times: u32, size: u32) -> Result<u64> {
    let bytes = block(alloc, size)?;
    let mut count = 0u64;
    for place in 0..times {
        for at in TRACKS {
            if let Entry::Keep(_) = entry(alloc, at, start_of(place, 0), &bytes, true)? {
                count = count.saturating_add(1);
            }
        }
    }
    Ok(count)
}

// A site at which nothing comes.
fn site(alloc: Global) -> MemorySite {
    MemorySite::new(
        alloc,
        Script::from_vec(Vec::new(alloc)),
        Numbers::from_vec(Vec::new(alloc)),
        Numbers::from_vec(Vec::new(alloc)),
    )
}

fn declare<R: Wait>(rt: &R, alloc: Global, writer: &mut ShelfWriter) -> Result<()> {
    let ladder = channel(alloc)?;
    put_one(rt, &site(alloc), writer, &Entry::Declare(ladder))
}

fn put_one<R: Wait>(
    rt: &R,
    site: &MemorySite,
    writer: &mut ShelfWriter,
    entry: &Entry,
) -> Result<()>
    requires { IsValidEntry entry.now }
{
    if writer.put(rt, site, entry).is_err() {
        bail!("out of memory");
    }
    Ok(())
}

// Publishes the fragments of a time, one by one.
fn put_time<R: Wait>(
    rt: &R,
    alloc: Global,
    writer: &mut ShelfWriter,
    time: u64,
    bytes: &Part,
    is_shared: bool,
) -> Result<()> {
    let site = site(alloc);
    for at in TRACKS {
        let entry = entry(alloc, at, time, bytes, is_shared)?;
        put_one(rt, &site, writer, &entry)?;
    }
    Ok(())
}

// Publishes the fragments of so many times, with so many ticks between two.
fn put_all<R: Wait>(
    rt: &R,
    alloc: Global,
    writer: &mut ShelfWriter,
    times: u32,
    gap: u32,
    bytes: &Part,
    is_shared: bool,
) -> Result<()> {
    declare(rt, alloc, writer)?;
    for place in 0..times {
        put_time(rt, alloc, writer, start_of(place, gap), bytes, is_shared)?;
    }
    Ok(())
}

/// Publishes the fragments of so many times one by one, whose samples share a block or are copied, and gives how many entries are published.
pub fn put<R: Wait>(rt: &R, alloc: Global, times: u32, size: u32, is_shared: bool) -> Result<u64> {
    let bytes = block(alloc, size)?;
    let (mut writer, _readers) = make(rt, alloc, 1)?;
    let done = put_all(rt, alloc, &mut writer, times, 0, &bytes, is_shared);
    let height = writer.height();
    writer.end(rt);
    done?;
    Ok(height)
}

fn length(shown: &Shown) -> u64 {
    match shown {
        Shown::Reply(text) => {
            let (head, tail) = text.parts();
            (head.len() as u64).saturating_add(tail.len() as u64)
        }
        Shown::Forward | Shown::NoMemory => 0,
    }
}

// Asks for a fragment so many times, and gives how many bytes came.
fn ask_all(alloc: Global, reader: &mut ShelfReader, wanted: Address, repeats: u32) -> u64 {
    let act = Act::Fragment(wanted);
    let mut done = 0u64;
    for _ in 0..repeats {
        done = done.saturating_add(length(&reader.answer(alloc, &act)));
    }
    done
}

fn reader_of(readers: Readers) -> Result<ShelfReader> {
    match readers.into_vec().pop() {
        Some(reader) => Ok(reader),
        None => bail!("no reader"),
    }
}

fn put_and_ask<R: Wait>(
    rt: &R,
    alloc: Global,
    writer: &mut ShelfWriter,
    readers: Readers,
    numbers: [u32; 3],
) -> Result<u64> {
    let [times, size, repeats] = numbers;
    let bytes = block(alloc, size)?;
    let mut reader = reader_of(readers)?;
    put_all(rt, alloc, writer, times, 0, &bytes, true)?;
    let wanted = asked(alloc, times)?;
    Ok(ask_all(alloc, &mut reader, wanted, repeats))
}

/// Publishes the fragments of so many times, asks for one of the third last so many times, and gives how many bytes came.
pub fn ask<R: Wait>(rt: &R, alloc: Global, times: u32, size: u32, repeats: u32) -> Result<u64> {
    let (mut writer, readers) = make(rt, alloc, 1)?;
    let done = put_and_ask(rt, alloc, &mut writer, readers, [times, size, repeats]);
    writer.end(rt);
    done
}

// Asks for the manifest so many times, and gives how many bytes came.
fn list_all(alloc: Global, reader: &mut ShelfReader, asks: u32) -> u64 {
    let mut done = 0u64;
    for _ in 0..asks {
        done = done.saturating_add(length(&reader.answer(alloc, &Act::Manifest)));
    }
    done
}

fn put_and_list<R: Wait>(
    rt: &R,
    alloc: Global,
    writer: &mut ShelfWriter,
    readers: Readers,
    numbers: [u32; 4],
) -> Result<u64> {
    let [times, gap, rounds, asks] = numbers;
    let bytes = block(alloc, 60_000)?;
    let mut reader = reader_of(readers)?;
    put_all(rt, alloc, writer, times, gap, &bytes, true)?;
    let mut done = 0u64;
    for round in 0..rounds {
        let time = start_of(times.saturating_add(round), gap);
        put_time(rt, alloc, writer, time, &bytes, true)?;
        done = done.saturating_add(list_all(alloc, &mut reader, asks));
    }
    Ok(done)
}

/// Publishes the fragments of so many times, with so many ticks between two, and then in each of so many rounds those of one more, behind
/// which it asks for the manifest so many times; and gives how many bytes came.
pub fn list<R: Wait>(
    rt: &R,
    alloc: Global,
    times: u32,
    gap: u32,
    rounds: u32,
    asks: u32,
) -> Result<u64> {
    let (mut writer, readers) = make(rt, alloc, 1)?;
    let done = put_and_list(rt, alloc, &mut writer, readers, [times, gap, rounds, asks]);
    writer.end(rt);
    done
}
