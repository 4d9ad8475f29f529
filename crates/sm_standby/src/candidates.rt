//! Where a fragment may stand that isn't listed yet.
ghost use Rattle.std.specs.Prelude.{◌≡◌, ◌++◌, ◌∷◌, ℕ, [], List, length, map, slice_get, Some, IfOk, OnOk};
ghost use Rattle.sm_model.specs.declared.address.Address.{Address};
ghost use Rattle.sm_model.specs.Same.{is_same};
ghost use Rattle.sm_log.specs.Adds.{tracks_of};
ghost use Rattle.sm_standby.specs.Candidates.{end_of, start_behind, candidates, addresses_at, address_in, row, longest};

use sm_model::{Address, Name, NoMemory, Track};
use std::alloc::Global;
use std::marker::Model;

// The candidates of one stream: the starts and the ends of its listed times.
#[derive(Debug, Drop)]
pub(crate) struct StreamCandidates {
    name: Name,
    times: Vec<u64>,
}

impl Model for StreamCandidates {
    ghost use Rattle.sm_standby.specs.Candidates as seen;

    ghost Value = { seen.Candidates };

    ghost view = { λ c. record { name = c.name; times = c.times.items } };
}

// A start, unless what stands before it ends there.
fn put_start(all: &mut Vec<u64>, end: Option<u64>, start: u64) -> Result<(), NoMemory>
    ensures { OnOk result (all.new.items ≡ all.old.items ++ start_behind end start) }
{
    match end {
        Some(end) if end == start => Ok(()),
        _ => {
            all.push(start)?;
            Ok(())
        }
    }
}

// Start and end of one listed time more.
fn put_time(all: &mut Vec<u64>, end: Option<u64>, time: (u64, u64)) -> Result<u64, NoMemory>
    ensures { IfOk result (λ e. (e ≡ end_of time) × (all.new.items ≡ (all.old.items ++ start_behind end time.0) ++ end_of time ∷ [])) }
{
    put_start(all, end, time.0)?;
    let end = time.0.saturating_add(time.1);
    all.push(end)?;
    Ok(end)
}

// The starts and the ends of these times, each once, in their order; 0 where there are none.
fn candidates(alloc: Global, times: &[(u64, u64)]) -> Result<Vec<u64>, NoMemory>
    ensures { IfOk result (λ v. v.items ≡ candidates times.now) }
{
    let mut all: Vec<u64> = Vec::new(alloc);
    if times.is_empty() {
        all.push(0)?;
    }
    let mut end = None;
    for time in times {
        end = Some(put_time(&mut all, end, *time)?);
    }
    Ok(all)
}

impl StreamCandidates {
    // Those of a stream of that name with these listed times.
    pub(crate) fn new(
        alloc: Global,
        name: &Name,
        times: &[(u64, u64)],
    ) -> Result<StreamCandidates, NoMemory>
        ensures { IfOk result (λ c. c ≡ record { name = name.now; times = candidates times.now }) }
    {
        Ok(StreamCandidates {
            name: name.copy(alloc)?,
            times: candidates(alloc, times)?,
        })
    }

    // Whether they are of the stream of that name.
    pub(crate) fn is_of(&self, name: &Name) -> bool
        ensures { result ≡ is_same self.now.name name.now }
    {
        self.name == *name
    }

    // How many there are.
    fn len(&self) -> usize
        ensures { result ≡ length self.now.times }
    {
        self.times.len()
    }

    // Puts the addresses of the stream's tracks at the candidate of that place behind the others.
    fn put_row(
        &self,
        alloc: Global,
        channel: &[Track],
        place: usize,
        addresses: &mut Vec<Address>,
    ) -> Result<(), NoMemory>
        ensures { OnOk result (addresses.new.items ≡ addresses.old.items ++ addresses_at channel.now self.now.name (slice_get self.now.times place)) }
    {
        match self.times.get(place) {
            Some(time) => put_addresses(alloc, channel, &self.name, *time, addresses),
            None => Ok(()),
        }
    }
}

// Puts the address of a track at that time behind the others, if the track is of that stream.
fn put_address(
    alloc: Global,
    track: &Track,
    name: &Name,
    time: u64,
    addresses: &mut Vec<Address>,
) -> Result<(), NoMemory>
    ensures { OnOk result (addresses.new.items ≡ addresses.old.items ++ map (address_in time) (tracks_of name.now (track.now ∷ []))) }
{
    if track.name == *name {
        addresses.push(Address {
            stream: track.name.copy(alloc)?,
            bitrate: track.bitrate,
            time,
        })?;
    }
    Ok(())
}

// Puts the addresses of a stream's tracks at that time behind the others.
fn put_addresses(
    alloc: Global,
    channel: &[Track],
    name: &Name,
    time: u64,
    addresses: &mut Vec<Address>,
) -> Result<(), NoMemory>
    ensures { OnOk result (addresses.new.items ≡ addresses.old.items ++ map (address_in time) (tracks_of name.now channel.now)) }
{
    for track in channel {
        put_address(alloc, track, name, time, addresses)?;
    }
    Ok(())
}

// Stream by stream, the addresses at the candidates of that place.
pub(crate) fn row(
    alloc: Global,
    channel: &[Track],
    place: usize,
    all: &[StreamCandidates],
) -> Result<Vec<Address>, NoMemory>
    ensures { IfOk result (λ v. v.items ≡ row channel.now place all.now) }
{
    let mut addresses = Vec::new(alloc);
    for candidates in all {
        candidates.put_row(alloc, channel, place, &mut addresses)?;
    }
    Ok(addresses)
}

// How many candidates the stream has that has most.
pub(crate) fn longest(all: &[StreamCandidates]) -> usize
    ensures { result ≡ longest all.now }
{
    let mut most = 0;
    for candidates in all {
        most = most.max(candidates.len());
    }
    most
}
