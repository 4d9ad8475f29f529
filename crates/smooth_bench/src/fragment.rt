//! One fragment, read, cut, written, shared, copied or pushed again and again.

ghost use Rattle.std.specs.Prelude.{◌≤◌, length};

use anyhow::{Result, ensure};
use sm_model::{Bytes, Defaults, Fragment, Name, Sample, Samples};
use sm_moof::{finish, is_one_box, put_fragment, read_fragment, read_moof};
use sm_push::Push;
use std::alloc::Global;

fn sample(alloc: Global, size: u32) -> Result<Sample> {
    Ok(Sample {
        duration: 400,
        flags: 0,
        offset: 0,
        bytes: Bytes::from_vec(vec![in alloc; 7; size as usize]?),
    })
}

fn fragment(alloc: Global, samples: u32, size: u32) -> Result<Fragment> {
    let mut list = Vec::with_capacity(alloc, samples as usize)?;
    for _ in 0..samples {
        list.push(sample(alloc, size)?)?;
    }
    Ok(Fragment {
        stream: Name::of_track(alloc, 1)?,
        bitrate: 1,
        time: 0,
        duration: 20_000_000,
        signed: false,
        samples: Samples::from_vec(list),
    })
}

// Writes the fragment so many times, and gives the bytes written.
fn write(alloc: Global, fragment: &Fragment, repeats: u32) -> Result<u64> {
    let mut done = 0u64;
    for _ in 0..repeats {
        ensure!(fragment.is_valid(), "no valid fragment");
        done = done.saturating_add(put_fragment(alloc, 1, 1, fragment, &[])?.len());
    }
    Ok(done)
}

// Reads the text so many times, and gives the bytes read.
fn read(alloc: Global, text: &[u8], split: usize, repeats: u32) -> Result<u64>
    requires { split ≤ length text.now }
{
    let zero = Defaults {
        duration: 0,
        size: 0,
        flags: 0,
    };
    let (moof, mdat) = text.split_at(split);
    let mut done = 0u64;
    for _ in 0..repeats {
        ensure!(is_one_box(moof) && is_one_box(mdat), "no two boxes");
        let raw = read_fragment(alloc, moof, mdat, &zero)?;
        ensure!(raw.samples.len() > 0, "no samples");
        done = done.saturating_add(text.len() as u64);
    }
    Ok(done)
}

// Pushes the text so many times, in pieces of this size, and gives how many fragments came of it.
fn push(alloc: Global, text: &[u8], size: usize, repeats: u32) -> Result<u64> {
    let mut push = Push::headerless(alloc);
    let mut done = 0u64;
    for _ in 0..repeats {
        for piece in text.chunks(size.max(1)) {
            done = done.saturating_add(push.feed(piece)?.len());
        }
    }
    push.end()?;
    Ok(done)
}

fn copy(alloc: Global, text: &[u8], repeats: u32) -> Result<u64> {
    let mut done = 0u64;
    for _ in 0..repeats {
        done = done.saturating_add(Bytes::from_slice(alloc, text)?.len());
    }
    Ok(done)
}

// Cuts the samples of the text so many times out of a block that has its `mdat`, as a push does, and gives the bytes cut.
fn cut(alloc: Global, text: &[u8], split: usize, repeats: u32) -> Result<u64>
    requires { split ≤ length text.now }
{
    let zero = Defaults {
        duration: 0,
        size: 0,
        flags: 0,
    };
    let (moof, mdat) = text.split_at(split);
    let block = Bytes::from_slice(alloc, mdat)?.into_part(alloc)?;
    let mut done = 0u64;
    for _ in 0..repeats {
        ensure!(
            is_one_box(moof) && is_one_box(block.as_slice()),
            "no two boxes"
        );
        let run = read_moof(alloc, moof, &zero)?;
        let raw = finish(alloc, moof.len() as u64, block.again()?, run)?;
        ensure!(raw.samples.len() > 0, "no samples");
        done = done.saturating_add(text.len() as u64);
    }
    Ok(done)
}

// Copies a fragment that was read so many times, which shares its block, and gives the bytes of the samples.
fn share(alloc: Global, text: &[u8], split: usize, repeats: u32) -> Result<u64>
    requires { split ≤ length text.now }
{
    let zero = Defaults {
        duration: 0,
        size: 0,
        flags: 0,
    };
    let (moof, mdat) = text.split_at(split);
    ensure!(is_one_box(moof) && is_one_box(mdat), "no two boxes");
    let raw = read_fragment(alloc, moof, mdat, &zero)?;
    let mut done = 0u64;
    for _ in 0..repeats {
        done = done.saturating_add(raw.samples.copy(alloc)?.len());
    }
    Ok(done)
}

/// Does `mode` so many times with a fragment of so many samples of this size each, and gives what was done: bytes, or fragments of
/// a push.
///
/// `push` hands its text to a push in pieces of 65,536 bytes, and `bytes` byte by byte; every other mode is a copy.
pub fn run(alloc: Global, mode: &str, numbers: [u32; 5]) -> Result<u64> {
    let [samples, size, repeats, _, _] = numbers;
    ensure!(samples <= 65_536, "at most 65,536 samples");
    let fragment = fragment(alloc, samples, size)?;
    ensure!(fragment.is_valid(), "no valid fragment");
    let text = put_fragment(alloc, 1, 1, &fragment, &[])?;
    let split = 112 + 16 * samples as usize;
    ensure!(split <= text.as_slice().len(), "no moof");
    match mode {
        "read" => read(alloc, text.as_slice(), split, repeats),
        "cut" => cut(alloc, text.as_slice(), split, repeats),
        "share" => share(alloc, text.as_slice(), split, repeats),
        "write" => write(alloc, &fragment, repeats),
        "push" => push(alloc, text.as_slice(), 65_536, repeats),
        "bytes" => push(alloc, text.as_slice(), 1, repeats),
        _ => copy(alloc, text.as_slice(), repeats),
    }
}
