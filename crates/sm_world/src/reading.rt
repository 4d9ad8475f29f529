//! What a store keeps, read back.
ghost use Rattle.std.specs.Prelude.{◌≡◌, ◌<◌, ◌≤◌, ◌^◌, ℕ, List, Option, None, Some, IfOk, IfSome, IsTrue, length, slice_get};
ghost use Rattle.sm_model.specs.declared.entry.Entry.{Entry};
ghost use Rattle.sm_model.specs.declared.entry.Entry.TheVariants.{Keep};
ghost use Rattle.sm_log.specs.Logs.{channel_of};
ghost use Rattle.sm_site.specs.Meanings.{DiskAlone};
ghost use Rattle.sm_archive.specs.Stands.{Keeps, Stands as Holds};
ghost use Rattle.sm_world.specs.Encoders.{KeepsRound, channel, entries_after, log_of, of_encoder_a};
ghost use Rattle.sm_world.specs.Worlds.{World, IsClosed, Stands};

use crate::OriginDial;
use crate::encoders::of_encoder_a;
use crate::equal::{is_same_channel, is_same_fragment};
use crate::header::channel;
use sm_archive::{Archive, Fetched, Limits, bodies_have_one_log};
use sm_model::{Address, NoMemory};
use sm_seglog::law::stores_have_one_reading;
use sm_serve::State;
use sm_site::Crashing;
use std::alloc::Global;

// How many entries a store has after so many rounds: the channel, and three fragments each.
pub(crate) fn entries_after(rounds: u64) -> u64
    requires few { rounds ≤ 2000 }
    ensures { result ≡ entries_after rounds }
{
    if rounds == 0 { 0 } else { 1 + 3 * rounds }
}

// Whether the entry at a place is what encoder A pushed in round `i` for this track.
fn keeps_one<S: Crashing>(
    alloc: Global,
    site: &mut S,
    archive: &Archive,
    place: u64,
    i: u64,
    id: u32,
) -> Result<bool, NoMemory>
    requires stands { (log : List Entry) × Holds archive.now log None (S.Disk.seen.may_leave site.old) }
    requires early { i < 2 ^ 32 }
    requires low { id < 4 }
    ensures kept { IfOk result (λ same. IsTrue same → (log : List Entry) → Holds archive.now log None (S.Disk.seen.may_leave site.old)
        → slice_get log place ≡ Some (Keep (of_encoder_a i id))) }
    ensures stands { (log : List Entry) → Holds archive.now log None (S.Disk.seen.may_leave site.old) → Holds archive.now log None (S.Disk.seen.may_leave site.new) }
    ensures disk_alone { DiskAlone (S.Disk.seen.view site.old) (S.Disk.seen.view site.new) }
{
    let wanted = of_encoder_a(alloc, i, id)?;
    let address = Address::of(alloc, &wanted)?;
    match archive.fetch(alloc, site, &address) {
        Fetched::Found {
            place: at,
            fragment,
        } => {
            if at != place {
                return Ok(false);
            }
            Ok(is_same_fragment(&fragment, &wanted))
        }
        Fetched::Absent | Fetched::DiskFault | Fetched::Damaged => Ok(false),
        Fetched::NoMemory => Err(NoMemory),
    }
}

// Whether the entries of a round are what encoder A pushed.
fn keeps_round<S: Crashing>(
    alloc: Global,
    site: &mut S,
    archive: &Archive,
    i: u64,
) -> Result<bool, NoMemory>
    requires stands { (log : List Entry) × Holds archive.now log None (S.Disk.seen.may_leave site.old) }
    requires early { i < 2 ^ 32 }
    ensures kept { IfOk result (λ same. IsTrue same → (log : List Entry) → Holds archive.now log None (S.Disk.seen.may_leave site.old) → KeepsRound log i) }
    ensures stands { (log : List Entry) → Holds archive.now log None (S.Disk.seen.may_leave site.old) → Holds archive.now log None (S.Disk.seen.may_leave site.new) }
    ensures disk_alone { DiskAlone (S.Disk.seen.view site.old) (S.Disk.seen.view site.new) }
{
    if !keeps_one(alloc, site, archive, 3 * i + 1, i, 1)? {
        return Ok(false);
    }
    if !keeps_one(alloc, site, archive, 3 * i + 2, i, 2)? {
        return Ok(false);
    }
    keeps_one(alloc, site, archive, 3 * i + 3, i, 3)
}

// Whether the first entry is the channel of the encoders.
fn has_channel(alloc: Global, archive: &Archive) -> Result<bool, NoMemory>
    ensures { IfOk result (λ same. IsTrue same → (bodies : List (List ℕ)) (body : Option (List ℕ)) (log : List Entry) (doubt : Option Entry)
        → Keeps archive.now bodies body log doubt → channel_of log ≡ Some channel) }
{
    let wanted = channel(alloc)?;
    match archive.catalog() {
        Some(catalog) => Ok(is_same_channel(catalog.channel(), &wanted)),
        None => Ok(false),
    }
}

// Whether all entries are the channel and what encoder A pushed in so many rounds.
fn keeps_all<S: Crashing>(
    alloc: Global,
    site: &mut S,
    archive: &Archive,
    rounds: u64,
) -> Result<bool, NoMemory>
    requires stands { (log : List Entry) × Holds archive.now log None (S.Disk.seen.may_leave site.old) }
    requires few { rounds ≤ 2000 }
    ensures kept { IfOk result (λ same. IsTrue same → (log : List Entry) → Holds archive.now log None (S.Disk.seen.may_leave site.old) → log ≡ log_of rounds) }
    ensures stands { (log : List Entry) → Holds archive.now log None (S.Disk.seen.may_leave site.old) → Holds archive.now log None (S.Disk.seen.may_leave site.new) }
    ensures disk_alone { DiskAlone (S.Disk.seen.view site.old) (S.Disk.seen.view site.new) }
{
    if archive.len() != entries_after(rounds) {
        return Ok(false);
    }
    if rounds == 0 {
        return Ok(true);
    }
    if !has_channel(alloc, archive)? {
        return Ok(false);
    }
    for i in 0..rounds {
        if !keeps_round(alloc, site, archive, i)? {
            return Ok(false);
        }
    }
    Ok(true)
}

// Opens a store that isn't open, and reads all of it.
fn read_all<S: Crashing>(
    alloc: Global,
    site: &mut S,
    limits: Limits,
    rounds: u64,
) -> Result<bool, NoMemory>
    requires bytes { limits.store_bytes ≤ 2 ^ 62 }
    requires entries { limits.entries < 2 ^ 32 }
    requires closed { (w : World) × IsClosed S.Disk.seen w site.old }
    requires few { rounds ≤ 2000 }
    ensures stays { (w : World) → IsClosed S.Disk.seen w site.old → IsClosed S.Disk.seen w site.new }
    ensures kept { IfOk result (λ same. IsTrue same → (w : World) → IsClosed S.Disk.seen w site.old → w.log ≡ log_of rounds) }
    ensures disk_alone { DiskAlone (S.Disk.seen.view site.old) (S.Disk.seen.view site.new) }
{
    bodies_have_one_log();
    stores_have_one_reading();
    match State::start(alloc, site, limits) {
        Ok(state) => keeps_all(alloc, site, state.archive(), rounds),
        Err(_) => Err(NoMemory),
    }
}

impl<S: Crashing> OriginDial<S> {
    /// How many entries the store has, where it is open.
    pub fn entries(&self) -> Option<u64>
        ensures { IfSome result (λ n. (w : World) → Stands S.Disk.seen w self.now.1.state self.now.0 → n ≡ length w.log) }
    {
        match &self.state {
            Some(state) => Some(state.archive().len()),
            None => None,
        }
    }

    // Reads a store back that isn't open: whether it keeps the channel of the encoders and all that encoder A pushed in so many rounds, in
    // order, and nothing else. An opening that fails is told as want of memory.
    pub(crate) fn reads_back(&mut self, rounds: u64) -> Result<bool, NoMemory>
        requires closed { self.old.1.state ≡ None }
        requires few { rounds ≤ 2000 }
        ensures dialing { self.new.1 ≡ self.old.1 }
        ensures stays { (w : World) → IsClosed S.Disk.seen w self.old.0 → IsClosed S.Disk.seen w self.new.0 }
        ensures kept { IfOk result (λ same. IsTrue same → (w : World) → IsClosed S.Disk.seen w self.old.0 → w.log ≡ log_of rounds) }
        ensures disk_alone { DiskAlone (S.Disk.seen.view self.old.0) (S.Disk.seen.view self.new.0) }
    {
        read_all(self.alloc, &mut self.site, self.limits, rounds)
    }
}
