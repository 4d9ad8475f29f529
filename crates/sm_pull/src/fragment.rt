//! What is asked of a track, and what is kept of it.
ghost use Rattle.std.specs.Prelude.{◌≡◌, ℕ, List, Option, IfOk, is_some};
ghost use Rattle.sm_model.specs.declared.entry.Entry.{Entry};
ghost use Rattle.sm_log.specs.Logs.{kept_at};
ghost use Rattle.sm_archive.specs.Stands.{Keeps};
ghost use Rattle.sm_fetch.specs.Spelt.{given};
ghost use Rattle.sm_pull.specs.Tracks.{address_at};

use sm_archive::Archive;
use sm_log::law::kept_is_added;
use sm_model::{Address, Fragment, NoMemory, RawFragment, Track};
use std::alloc::Global;

/// The address of a track at a start, in ticks of its timescale.
pub fn address_at(alloc: Global, track: &Track, time: u64) -> Result<Address, NoMemory>
    ensures { IfOk result (λ a. a ≡ address_at track.now time) }
{
    Ok(Address {
        stream: track.name.copy(alloc)?,
        bitrate: track.bitrate,
        time,
    })
}

/// What was read, as a fragment of that track.
pub fn fragment_of(alloc: Global, track: &Track, raw: RawFragment) -> Result<Fragment, NoMemory>
    ensures { IfOk result (λ f. f ≡ given track.now.name track.now.bitrate raw) }
{
    Ok(Fragment {
        stream: track.name.copy(alloc)?,
        bitrate: track.bitrate,
        time: raw.time,
        duration: raw.duration,
        signed: raw.signed,
        samples: raw.samples,
    })
}

/// Whether a fragment is kept at that address.
pub fn is_kept(archive: &Archive, address: &Address) -> bool
    ensures { (bodies : List (List ℕ)) (body : Option (List ℕ)) (log : List Entry) (doubt : Option Entry) → Keeps archive.now bodies body log doubt
        → result ≡ is_some (kept_at log address.now) }
{
    kept_is_added();
    match archive.catalog() {
        Some(catalog) => catalog.place(address).is_some(),
        None => false,
    }
}
