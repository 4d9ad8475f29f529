//! A reader, asked in a thread of its own.
use anyhow::{Result, bail};
use sm_model::{Act, Address};
use sm_shelf::{ShelfReader, Shown};
use std::alloc::Global;
use std::thread;
use std::thread::Threads;

/// The reader, and what it answered.
#[derive(Drop)]
pub struct Answered {
    pub reader: ShelfReader,
    pub shown: Shown,
}

fn manifest(alloc: Global, reader: ShelfReader) -> Answered {
    let mut reader = reader;
    let shown = reader.answer(alloc, &Act::Manifest);
    Answered { reader, shown }
}

fn fragment(alloc: Global, reader: ShelfReader, address: Address) -> Answered {
    let mut reader = reader;
    let shown = reader.answer(alloc, &Act::Fragment(address));
    Answered { reader, shown }
}

/// Asks a reader for the manifest.
pub fn ask_manifest<R: Threads>(rt: &R, alloc: Global, reader: ShelfReader) -> Result<Answered> {
    match thread::spawn(rt, move || manifest(alloc, reader)) {
        Ok(child) => Ok(child.join(rt)),
        Err(_) => bail!("no thread"),
    }
}

/// Asks a reader for the fragment at an address.
pub fn ask_fragment<R: Threads>(
    rt: &R,
    alloc: Global,
    reader: ShelfReader,
    address: Address,
) -> Result<Answered> {
    match thread::spawn(rt, move || fragment(alloc, reader, address)) {
        Ok(child) => Ok(child.join(rt)),
        Err(_) => bail!("no thread"),
    }
}
