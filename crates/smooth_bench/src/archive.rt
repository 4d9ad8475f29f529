//! Fragments kept in a store on a disk in memory, which is opened again.
ghost use Rattle.std.specs.Prelude.{List, Option};
ghost use Rattle.sm_model.specs.declared.entry.Entry.{Entry};
ghost use Rattle.sm_site.specs.Memory.{site_may_leave};
ghost use Rattle.sm_archive.specs.Stands.{Stands};

use anyhow::{Result, bail, ensure};
use sm_archive::{Archive, Declared, Keeping, Limits, open_store};
use sm_model::{Bytes, Channel, Fragment, Kind, Name, NameFault, Params, Sample, Samples, Track};
use sm_site::{MemorySite, Numbers, Script};
use std::alloc::Global;

fn name(alloc: Global) -> Result<Name> {
    match Name::read(alloc, b"video") {
        Ok(name) => Ok(name),
        Err(NameFault::Form { .. }) => bail!("no name"),
        Err(NameFault::NoMemory) => bail!("out of memory"),
    }
}

fn channel(alloc: Global) -> Result<Channel> {
    let track = Track {
        kind: Kind::Video,
        name: name(alloc)?,
        bitrate: 350_000,
        timescale: 10_000_000,
        fourcc: Bytes::from_slice(alloc, b"H264")?,
        private: Bytes::from_slice(alloc, b"")?,
        numbers: Params {
            width: None,
            height: None,
            tag: None,
            channels: None,
            rate: None,
            bits: None,
            packet: None,
        },
    };
    Ok(Channel::from_vec(vec![in alloc; track]?))
}

fn fragment(alloc: Global, time: u64, bytes: &[u8]) -> Result<Fragment> {
    let sample = Sample {
        duration: 2,
        flags: 0,
        offset: 0,
        bytes: Bytes::from_slice(alloc, bytes)?,
    };
    Ok(Fragment {
        stream: name(alloc)?,
        bitrate: 350_000,
        time,
        duration: 2,
        signed: false,
        samples: Samples::from_vec(vec![in alloc; sample]?),
    })
}

fn keep_all(
    alloc: Global,
    archive: &mut Archive,
    disk: &mut MemorySite,
    count: u32,
    bytes: &[u8],
) -> Result<u64>
    requires { (log : List Entry) × (doubt : Option Entry) × Stands archive.old log doubt (site_may_leave disk.old) }
{
    let mut kept = 0u64;
    for i in 0..count {
        let fragment = fragment(alloc, i as u64 * 2, bytes)?;
        if !fragment.is_valid() {
            bail!("no fragment");
        }
        if let Keeping::Kept { .. } = archive.keep(alloc, disk, &fragment) {
            kept = kept.saturating_add(1);
        }
    }
    Ok(kept)
}

// A fresh store with so many fragments, and how many were kept.
fn keep(alloc: Global, disk: &mut MemorySite, count: u32, bytes: &[u8]) -> Result<u64> {
    let limits = Limits {
        store_bytes: 1 << 40,
        entries: 4_000_000_000,
        times: 4_000_000_000,
    };
    let Ok(mut archive) = open_store(alloc, disk, limits) else {
        bail!("no store");
    };
    let header = channel(alloc)?;
    if !header.is_valid() {
        bail!("no channel");
    }
    let Declared::Fixed = archive.declare(alloc, disk, &header) else {
        bail!("not declared");
    };
    keep_all(alloc, &mut archive, disk, count, bytes)
}

/// With `keep` it keeps so many fragments of this size in a fresh store, and then opens that store so many times; every other mode copies
/// as many bytes. It gives the number of fragments that were kept, or copied, and of the entries of the stores that were opened.
pub fn run(alloc: Global, mode: &str, numbers: [u32; 5]) -> Result<u64> {
    let [count, size, repeats, _, _] = numbers;
    ensure!(size <= 67_108_864, "at most 67,108,864 bytes");
    let bytes = vec![in alloc; 7; size as usize]?;
    let mut done = 0u64;
    if mode != "keep" {
        for _ in 0..count {
            if Bytes::from_slice(alloc, &bytes)?.len() == size as u64 {
                done = done.saturating_add(1);
            }
        }
        return Ok(done);
    }
    let mut disk = MemorySite::new(
        alloc,
        Script::from_vec(Vec::new(alloc)),
        Numbers::from_vec(Vec::new(alloc)),
        Numbers::from_vec(Vec::new(alloc)),
    );
    done = keep(alloc, &mut disk, count, &bytes)?;
    for _ in 0..repeats {
        let Ok(archive) = open_store(alloc, &mut disk, Limits::standard()) else {
            bail!("not opened");
        };
        done = done.saturating_add(archive.len());
    }
    Ok(done)
}
