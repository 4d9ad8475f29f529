//! The readers.
ghost use Rattle.std.specs.Prelude.{◌≡◌, true, false};
ghost use Rattle.left_right.specs.Sides.{view as known};
ghost use Rattle.sm_model.specs.declared.act.Act.TheVariants.{Manifest, Fragment as Ask};
ghost use Rattle.sm_log.specs.Digests.{Extends};
ghost use Rattle.sm_shelf.specs.declared.shown.Shown.TheVariants as shown;
ghost use Rattle.sm_shelf.specs.Shown.{Answers, IsAsk, IsFound, IsListingOf};

use crate::found::{Found, Listing};
use crate::replies::{Listed, count_of, fragment_of, manifest_of};
use crate::rule::{Looks, Seat};
use crate::shown::Shown;
use crate::told::{Told, take_over};
use core::mem::replace_with;
use sm_model::{Act, Address, Channel};
use std::alloc::Global;
use std::marker::Model;

/// A reader of a shelf. Contracts see which table it sits at, the digest that it has seen, and whether it is lost: a lost one answers
/// `NoMemory` for good.
/// It keeps the channel once it has seen it, and the manifest that it wrote last.
#[derive(Drop)]
pub struct ShelfReader {
    seat: Seat,
    lost: bool,
    channel: Option<Channel>,
    listed: Option<Listed>,
}

impl Model for ShelfReader {
    ghost use Rattle.left_right.specs.Sides.{view as known};
    ghost use Rattle.sm_shelf.specs.Shelf.{Sight};
    ghost use Rattle.sm_shelf.specs.Shown.{IsReader};

    ghost Value = { Sight };

    ghost view = { λ r. record { table = r.seat.place.table_id; seen = known r.seat.place; lost = r.lost } };

    ghost invariant = { λ r. IsReader r.channel r.listed (known r.seat.place) };
}

// Finds what is published at an address. The copy is left at once, so that the writer waits for no reply that is written.
fn look(seat: Seat, alloc: Global, address: &Address, knows: bool) -> (Seat, Found)
    ensures seen { Extends (known result.0.place) (known seat.place) }
    ensures found { IsFound (known result.0.place) address.now knows result.1 }
{
    match seat.enter_as::<Looks>() {
        Ok(reading) => {
            let found = reading.get().find(alloc, address, knows);
            (reading.leave(), found)
        }
        Err(seat) => (seat, Found::NoMemory),
    }
}

// Asks for the manifest. It is written while the copy is held, since a copy of the catalog would take longer; but only where more was added
// than the reader knows.
fn list(seat: Seat, alloc: Global, count: Option<u64>) -> (Seat, Listing)
    ensures seen { Extends (known result.0.place) (known seat.place) }
    ensures listing { IsListingOf (known result.0.place) count result.1 }
{
    match seat.enter_as::<Looks>() {
        Ok(reading) => {
            let listing = reading.get().list(alloc, count);
            (reading.leave(), listing)
        }
        Err(seat) => (seat, Listing::NoMemory),
    }
}

// The same in place.
fn find(seat: &mut Seat, alloc: Global, address: &Address, knows: bool) -> Found
    ensures seen { Extends (known seat.new.place) (known seat.old.place) }
    ensures found { IsFound (known seat.new.place) address.now knows result }
{
    replace_with(
        seat,
        address,
        |seat, address| look(seat, alloc, address, knows),
    )
}

// Asks for the manifest, in place.
fn ask(seat: &mut Seat, alloc: Global, count: Option<u64>) -> Listing
    ensures seen { Extends (known seat.new.place) (known seat.old.place) }
    ensures listing { IsListingOf (known seat.new.place) count result }
{
    replace_with(seat, count, |seat, count| list(seat, alloc, count))
}

impl ShelfReader {
    pub(crate) fn over(seat: Seat) -> ShelfReader
        ensures { result ≡ record { table = seat.place.table_id; seen = known seat.place; lost = false } }
    {
        ShelfReader {
            seat,
            lost: false,
            channel: None,
            listed: None,
        }
    }

    fn manifest(&mut self, alloc: Global) -> Shown
        ensures found { Answers self.old.seen Manifest result self.new.seen }
        ensures stays { self.new.lost ≡ self.old.lost }
    {
        let kept = self.listed.take();
        let listing = ask(&mut self.seat, alloc, count_of(&kept));
        let (shown, kept) = manifest_of(alloc, kept, listing);
        self.listed = kept;
        shown
    }

    fn fragment(&mut self, alloc: Global, address: &Address) -> Shown
        ensures found { Answers self.old.seen (Ask address.now) result self.new.seen }
        ensures stays { self.new.lost ≡ self.old.lost }
    {
        let known = self.channel.take();
        let found = find(&mut self.seat, alloc, address, known.is_some());
        let (shown, known) = fragment_of(alloc, address, known, found);
        self.channel = known;
        shown
    }

    /// Answers a request for the manifest, or for a fragment, from what is published: with the very reply of the digest that it then has seen,
    /// which goes on from the one seen before. It forwards exactly where the window of that digest lacks the fragment. It never waits for
    /// the writer, and the writer waits for no reply to a fragment. A manifest is written anew only where more was added since the last one.
    pub fn answer(&mut self, alloc: Global, act: &Act) -> Shown
        requires asks { IsAsk act.now }
        ensures found { self.old.lost ≡ false → Answers self.old.seen act.now result self.new.seen }
        ensures lost { self.old.lost ≡ true → (result ≡ shown.NoMemory) × (self.new ≡ self.old) }
        ensures stays { self.new.lost ≡ self.old.lost }
    {
        if self.lost {
            return Shown::NoMemory;
        }
        match act {
            Act::Manifest => self.manifest(alloc),
            Act::Fragment(address) => self.fragment(alloc, address),
            Act::Unknown | Act::Header(_) | Act::Frag(_) | Act::End { .. } | Act::Refuse(_) => {
                Shown::NoMemory
            }
        }
    }

    /// From now on it sees no less than was told, or is lost: it is where memory was wanting for what was told, or where what was told
    /// doesn't go on from what it has seen, as that of another shelf. It looks at all that it has seen.
    pub fn learn(&mut self, told: Told)
        ensures seen { Extends self.new.seen self.old.seen }
        ensures told { self.new.lost ≡ false → Extends self.new.seen told × (self.old.lost ≡ false) }
        ensures stays { self.old.lost ≡ true → self.new.lost ≡ true }
    {
        let Some(other) = told.into_seat() else {
            self.lost = true;
            return;
        };
        if take_over(&mut self.seat, other).is_err() {
            self.lost = true;
        }
    }
}
