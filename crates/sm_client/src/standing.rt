//! Where a stream stands, once its first manifest was read.
ghost use Rattle.std.specs.Prelude.{◌≡◌, ◌<◌, ◌+◌, ◌-◌, ◌^◌, ℕ, List, [], ◌∷◌, ◌++◌, true, length, Some, None, IfOk, OnOk};
ghost use Rattle.sm_manin.specs.declared.listing.StreamListing.{StreamListing};
ghost use Rattle.sm_client.specs.Starts.{has, starts, AreAfter};
ghost use Rattle.sm_client.specs.Stands as stand;
ghost use Rattle.sm_client.specs.Stands.{times_of, first_start, relisted, wrote};
ghost use Rattle.sm_client.specs.Calls.{Holds, HasLevels, KnowsFrom, Follows};

use crate::known::Known;
use sm_manin::StreamListing;
use sm_model::NoMemory;
use std::alloc::Global;

/// Where a stream stands.
#[derive(Drop)]
pub struct Standing {
    /// What the last manifest lists of it.
    pub listing: Option<StreamListing>,
    /// The start that is expected.
    pub expected: u64,
    /// The known starts that aren't before it.
    pub known: Known,
    /// How many fragments were written.
    pub written: u64,
    /// How many manifests were read since the last fragment was written, or since the stream began.
    pub manifests: u32,
}

/// The times of a stream, where it is listed.
pub fn times_of(listing: &Option<StreamListing>) -> &[(u64, u64)]
    ensures { result.now ≡ times_of listing.now }
{
    match listing {
        Some(stream) => stream.times.as_slice(),
        None => &[],
    }
}

// The start that is named, else the first of the times, else 0.
fn first_start(from: Option<u64>, times: &[(u64, u64)]) -> u64
    ensures { result ≡ first_start from times.now }
{
    match (from, times) {
        (Some(start), _) => start,
        (None, []) => 0,
        (None, [first, ..]) => first.0,
    }
}

// One start more, if it isn't before the expected one.
fn add_from(known: &mut Known, expected: u64, start: u64) -> Result<(), NoMemory>
    ensures { (all : List ℕ) → KnowsFrom expected all known.old → OnOk result (KnowsFrom expected (start ∷ all) known.new) }
{
    if start < expected {
        return Ok(());
    }
    match known.add(start) {
        Ok(()) => Ok(()),
        Err(_) => Err(NoMemory),
    }
}

// The starts of these times that aren't before the expected one. The times are gone through from the last one on, since
// the lowest start stands last.
fn known_of(alloc: Global, times: &[(u64, u64)], expected: u64) -> Result<Known, NoMemory>
    ensures { IfOk result (λ known. KnowsFrom expected (starts times.now) known) }
{
    let mut known = Known::new(alloc);
    let mut left = times.len();
    while left > 0 {
        left -= 1;
        let Ok(()) = add_from(&mut known, expected, times[left].0) else {
            return Err(NoMemory);
        };
    }
    Ok(known)
}

// Adds the starts of these times that aren't before the expected one.
fn add_all(known: &mut Known, expected: u64, times: &[(u64, u64)]) -> Result<(), NoMemory>
    ensures { (all : List ℕ) → KnowsFrom expected all known.old → OnOk result (KnowsFrom expected (all ++ starts times.now) known.new) }
{
    for time in times {
        let Ok(()) = add_from(known, expected, time.0) else {
            return Err(NoMemory);
        };
    }
    Ok(())
}

impl Standing {
    /// After the first manifest, which lists this of the stream.
    pub fn begin(
        alloc: Global,
        from: Option<u64>,
        stream: StreamListing,
    ) -> Result<Standing, NoMemory>
        requires { HasLevels (Some stream) }
        ensures { IfOk result (λ new. Holds new
            (record { listing = Some stream; expected = first_start from stream.times; known = starts stream.times; written = []; manifests = 1 })) }
    {
        let expected = first_start(from, stream.times.as_slice());
        let known = known_of(alloc, stream.times.as_slice(), expected)?;
        Ok(Standing {
            listing: Some(stream),
            expected,
            known,
            written: 0,
            manifests: 1,
        })
    }

    /// A further manifest lists this of the stream.
    pub fn relist(&mut self, alloc: Global, listing: Option<StreamListing>) -> Result<(), NoMemory>
        requires levels { HasLevels listing }
        requires few { self.old.manifests < 2 ^ 32 - 1 }
        ensures holds { (p : stand.Standing) → Holds self.old p → OnOk result (Holds self.new (relisted p listing)) }
        ensures written { self.new.written ≡ self.old.written }
        ensures listing { OnOk result (self.new.listing ≡ listing) }
        ensures manifests { OnOk result (self.new.manifests ≡ self.old.manifests + 1) }
    {
        self.known = known_of(alloc, times_of(&listing), self.expected)?;
        self.listing = listing;
        self.manifests += 1;
        Ok(())
    }

    /// The fragment up to this start was written, and named these times ahead.
    pub fn wrote(&mut self, expected: u64, ahead: &[(u64, u64)]) -> Result<(), NoMemory>
        requires { self.old.written < 2 ^ 64 - 1 }
        ensures written { self.new.written ≡ self.old.written + 1 }
        ensures listing { self.new.listing ≡ self.old.listing }
        ensures holds { (p q : stand.Standing) → Holds self.old p → Follows p q expected ahead.now → OnOk result (Holds self.new q) }
    {
        self.expected = expected;
        self.written += 1;
        self.manifests = 0;
        self.known.forget(expected);
        match add_all(&mut self.known, expected, ahead) {
            Ok(()) => Ok(()),
            Err(_) => Err(NoMemory),
        }
    }

    /// Whether the expected start is known.
    pub fn is_known(&self) -> bool
        ensures { (p : stand.Standing) → Holds self.now p → result ≡ has p.expected p.known }
    {
        self.known.lowest() == Some(self.expected)
    }

    /// How many starts are known behind the expected one, which is known too.
    pub fn ahead(&self) -> u64
        ensures { (p : stand.Standing) → Holds self.now p → has p.expected p.known ≡ true →
            (after : List ℕ) × AreAfter p.known p.expected after × (length after ≡ result) }
    {
        self.known.len().saturating_sub(1)
    }
}
