//! The writer.
ghost use Rattle.std.specs.Prelude.{◌≡◌, false, ℕ, ◌<◌, ◌≤◌, List, [], ◌∷◌, ◌++◌, ◌+◌, ◌⊎◌, Some, All, IfOk, OnOk, OnErr, MatchResult, fold, length, map, drop, slice_get, vec_len};
ghost use Rattle.left_right.specs.Sides.{view as known};
ghost use Rattle.sm_model.specs.declared.entry.Entry.{Entry};
ghost use Rattle.sm_model.specs.Entries.{address_of};
ghost use Rattle.sm_model.specs.Fragments.{IsValid};
ghost use Rattle.sm_log.specs.Logs.{IsSound};
ghost use Rattle.sm_log.specs.Digests.{window_of};
ghost use Rattle.sm_shelf.specs.Parts.{IsListing, IsEnd, addresses_in};
ghost use Rattle.sm_shelf.specs.Laying.{Whole, op_of, op_at, filling, nothing, laid, IsFit, IsValidEntry};
ghost use Rattle.sm_shelf.specs.Shelf.{applied, bare, op_in, shows_next, shut, unread, Belongs, IsFront, IsOf, height_of};

use crate::laid::{Laid, What};
use crate::past::{Past, note};
use crate::readers::ShelfReader;
use crate::rule::{Core, Looks, Note, Published, Seat};
use crate::stock::Stock;
use crate::told::Told;
use crate::window::{Window, window_of};
use core::mem::replace_with;
use left_right::reader::Factory;
use left_right::writer::Writer;
use sm_catalog::Catalog;
use sm_model::{Entry, Fragment, NoMemory};
use sm_site::Site;
use std::alloc::{AllocError, Global};
use std::marker::Model;
use std::snapshot::Snapshot;
use std::sync::{Arc, Wait};

// Which shelf it is: no two that are made have one name. It has no bytes.
#[derive(Drop)]
struct ShelfName {
    made: Snapshot<Factory<Stock, Stock, Published>>,
}

impl Model for ShelfName {
    ghost use Rattle.std.specs.Arc.{arc_value};
    ghost use Rattle.sm_shelf.specs.Shelf.{Table};

    ghost Value = { Table };

    ghost view = { λ n. (arc_value n.made.value.board).shared.table_id };
}

/// The one who publishes. Contracts see which table its shelf is, what is published, what was laid behind it and waits, and all that was published so
/// far. It is not `Drop`: finish with `end`.
pub struct ShelfWriter {
    alloc: Global,
    core: Core,
    name: ShelfName,
    past: Past,
}

impl Model for ShelfWriter {
    ghost use Rattle.std.specs.Prelude.{◌≡◌, drop, map};
    ghost use Rattle.left_right.specs.Sides.{view as known};
    ghost use Rattle.sm_shelf.specs.Shelf.{op_in, Desk};

    ghost Value = { Desk };

    ghost view = { λ w. record { table = w.name; published = w.core.desk.shown.value; pending = map op_in (drop w.core.behind w.core.log.items); past = w.past.items } };

    ghost invariant = { λ w. known w.core.desk.place ≡ w.core.desk.shown.value };
}

/// What is left of a shelf that was taken down. Contracts see what its writer was at the end, but that nothing waits any more. It has no bytes.
#[derive(Drop)]
pub struct ShelfEnd {
    name: ShelfName,
    digest: Snapshot<Stock>,
    past: Past,
}

impl Model for ShelfEnd {
    ghost use Rattle.std.specs.Prelude.{[]};
    ghost use Rattle.sm_shelf.specs.Shelf.{Desk};

    ghost Value = { Desk };

    ghost view = { λ e. record { table = e.name; published = e.digest.value; pending = []; past = e.past.items } };
}

/// Readers to hand out, each to a thread of its own. Contracts see them as a list.
#[derive(Drop)]
pub struct Readers {
    items: Vec<ShelfReader>,
}

impl Model for Readers {
    ghost use Rattle.std.specs.Prelude.{List};
    ghost use Rattle.sm_shelf.specs.Shelf.{Sight};

    ghost Value = { List Sight };

    ghost view = { λ r. r.items.items };
}

impl Readers {
    /// How many there are.
    pub fn len(&self) -> u64
        ensures { result ≡ length self.now }
    {
        self.items.len() as u64
    }

    /// The readers, without memory.
    pub fn into_vec(self) -> Vec<ShelfReader>
        ensures { result.items ≡ self }
    {
        let Readers { items } = self;
        items
    }
}

// Publishes what is pending.
fn show<R: Wait>(rt: &R, core: Core) -> (Core, Result<(), NoMemory>)
    requires { known core.desk.place ≡ core.desk.shown.value }
    ensures knows { known result.0.desk.place ≡ result.0.desk.shown.value }
    ensures ok { OnOk result.1 ((result.0.desk.shown.value ≡ fold applied core.desk.shown.value (drop core.behind core.log.items))
        × (drop result.0.behind result.0.log.items ≡ [])) }
    ensures err { OnErr result.1 ((result.0.desk.shown.value ≡ core.desk.shown.value)
        × (drop result.0.behind result.0.log.items ≡ drop core.behind core.log.items)) }
{
    let (core, published) = core.publish_as::<Looks, R>(rt);
    (core, published.map_err(|_| NoMemory))
}

// The same, in place.
fn publish<R: Wait>(rt: &R, core: &mut Core) -> Result<(), NoMemory>
    requires { known core.old.desk.place ≡ core.old.desk.shown.value }
    ensures knows { known core.new.desk.place ≡ core.new.desk.shown.value }
    ensures ok { OnOk result ((core.new.desk.shown.value ≡ fold applied core.old.desk.shown.value (drop core.old.behind core.old.log.items))
        × (drop core.new.behind core.new.log.items ≡ [])) }
    ensures err { OnErr result ((core.new.desk.shown.value ≡ core.old.desk.shown.value)
        × (drop core.new.behind core.new.log.items ≡ drop core.old.behind core.old.log.items)) }
{
    replace_with(core, rt, |core, rt| show(rt, core))
}

// What a catalog has, with the end of these fragments that fits a window.
fn filled(alloc: Global, catalog: &Catalog, fragments: &[Fragment]) -> Result<What, NoMemory>
    requires listing { IsListing catalog.now.adds }
    requires valid { All IsValid fragments.now }
    requires within { length fragments.now ≤ length catalog.now.adds }
    requires last { IsEnd (addresses_in catalog.now.adds) (map address_of fragments.now) }
    ensures fit { IfOk result IsFit }
    ensures op { IfOk result (λ w. op_of w ≡ Whole (filling catalog.now fragments.now)) }
{
    let window = window_of(alloc, fragments)?;
    Ok(What::Fill(Stock::over(alloc, catalog.copy(alloc)?, window)))
}

// What an entry is that stands at a place. Its block is one for both copies.
fn entry_at(alloc: Global, place: u64, entry: &Entry) -> Result<What, NoMemory>
    requires { IsValidEntry entry.now }
    ensures fit { IfOk result IsFit }
    ensures op { IfOk result (λ w. op_of w ≡ op_at place entry.now) }
{
    match entry {
        Entry::Declare(channel) => {
            let catalog = Catalog::new(alloc, channel.copy(alloc)?)?;
            Ok(What::Fill(Stock::over(alloc, catalog, Window::new(alloc))))
        }
        Entry::Keep(fragment) => { Ok(What::Keep(place, Arc::new(alloc, fragment.copy(alloc)?)?)) }
    }
}

impl ShelfWriter {
    // Publishes this behind what was pending, all at once.
    fn lay<R: Wait, S: Site>(&mut self, rt: &R, site: &S, one: Laid) -> Result<(), NoMemory>
        ensures ok { OnOk result (self.new ≡ shows_next self.old (S.Disk.seen.view site.now).transcript (fold laid self.old.published (self.old.pending ++ op_in one ∷ []))) }
        ensures err { OnErr result ((self.new.published ≡ self.old.published)
            × ((self.new.pending ≡ self.old.pending) ⊎ (self.new.pending ≡ self.old.pending ++ op_in one ∷ []))) }
        ensures table { self.new.table ≡ self.old.table }
        ensures past { OnErr result (self.new.past ≡ self.old.past) }
        ensures log { (log : List Entry) → IsSound log → Belongs log self.old → IsOf log (op_in one) → Belongs log self.new }
    {
        if self.core.append(one).is_err() {
            return Err(NoMemory);
        }
        match publish(rt, &mut self.core) {
            Ok(()) => {
                note(&mut self.past, &self.core, site);
                Ok(())
            }
            Err(NoMemory) => Err(NoMemory),
        }
    }

    /// Publishes a log up to some entry, all at once, on a shelf that has nothing: its catalog, and its last fragments, of which those are
    /// shown that fit the window of 67,108,864 bytes of samples. On a shelf that has something it changes nothing. It waits for readers
    /// that are inside. At `Err` what was published stays, and it may be pending: then the next call publishes it first. Samples that
    /// have several owners are not copied. The site is for clauses alone: by it they know the transcript at the time.
    pub fn fill<R: Wait, S: Site>(
        &mut self,
        rt: &R,
        site: &S,
        catalog: &Catalog,
        window: &[Fragment],
    ) -> Result<(), NoMemory>
        requires listing { IsListing catalog.now.adds }
        requires valid { All IsValid window.now }
        requires within { length window.now ≤ length catalog.now.adds }
        requires last { IsEnd (addresses_in catalog.now.adds) (map address_of window.now) }
        ensures ok { OnOk result (self.new ≡ shows_next self.old (S.Disk.seen.view site.now).transcript
            (fold laid self.old.published (self.old.pending ++ Whole (filling catalog.now window.now) ∷ []))) }
        ensures err { OnErr result ((self.new.published ≡ self.old.published) × ((self.new.pending ≡ self.old.pending)
            ⊎ (self.new.pending ≡ self.old.pending ++ Whole (filling catalog.now window.now) ∷ []))) }
        ensures table { self.new.table ≡ self.old.table }
        ensures past { OnErr result (self.new.past ≡ self.old.past) }
        // Where it brings a front of a log to which all on the shelf belongs, all belongs to it still.
        ensures log { (log : List Entry) → IsSound log → Belongs log self.old → IsFront log (filling catalog.now window.now) → Belongs log self.new }
    {
        let what = filled(self.alloc, catalog, window)?;
        self.lay(rt, site, Laid { what })
    }

    /// Publishes the entry that stands in the log behind what is published, all at once. What doesn't stand there, or is pending already,
    /// changes nothing. It waits for readers that are inside. At `Err` what was published stays, and the entry may be pending: then the
    /// next call, for this entry again, publishes it first. Samples that have several owners are not copied.
    pub fn put<R: Wait, S: Site>(&mut self, rt: &R, site: &S, entry: &Entry) -> Result<(), NoMemory>
        requires { IsValidEntry entry.now }
        ensures ok { OnOk result (self.new ≡ shows_next self.old (S.Disk.seen.view site.now).transcript
            (fold laid self.old.published (self.old.pending ++ op_at (height_of self.old.published) entry.now ∷ []))) }
        ensures err { OnErr result ((self.new.published ≡ self.old.published) × ((self.new.pending ≡ self.old.pending)
            ⊎ (self.new.pending ≡ self.old.pending ++ op_at (height_of self.old.published) entry.now ∷ []))) }
        ensures table { self.new.table ≡ self.old.table }
        ensures past { OnErr result (self.new.past ≡ self.old.past) }
        // Where it brings what a log to which all on the shelf belongs has there, all belongs to it still.
        ensures log { (log : List Entry) → IsSound log → Belongs log self.old → slice_get log (height_of self.old.published) ≡ Some entry.now
            → Belongs log self.new }
    {
        let what = entry_at(self.alloc, self.height(), entry)?;
        self.lay(rt, site, Laid { what })
    }

    /// How many entries of a log are published: the channel and what was added.
    pub fn height(&self) -> u64
        ensures { result ≡ height_of self.now.published }
    {
        self.core.published().height()
    }

    /// Gives what stands for the digest that is published.
    pub fn tell(&mut self) -> Told
        ensures kept { self.new ≡ self.old }
        ensures told { result ≡ self.old.published }
    {
        let digest = Snapshot::of(self.core.published());
        let seat = match self.core.factory().reader() {
            Ok(seat) => Some(taught(&mut self.core, seat)),
            Err(_) => None,
        };
        Told::over(seat, digest)
    }

    /// Waits for readers that are inside. From then on readers answer `NoMemory`. What is left is what clauses know of the writer; what waited was
    /// never published.
    pub fn end<R: Wait>(self, rt: &R) -> ShelfEnd
        ensures { result ≡ shut self }
    {
        let digest = Snapshot::of(self.core.published());
        let ShelfWriter {
            alloc: _,
            core,
            name,
            past,
        } = self;
        core.take(rt);
        ShelfEnd { name, digest, past }
    }
}

// The reader with what the writer knows.
fn taught(core: &mut Core, seat: Seat) -> Seat
    requires { seat.place.table_id ≡ core.old.desk.place.table_id }
    ensures kept { (core.new.desk.shown ≡ core.old.desk.shown) × (core.new.log ≡ core.old.log) × (core.new.behind ≡ core.old.behind)
        × (known core.new.desk.place ≡ known core.old.desk.place) }
    ensures told { known result.place ≡ known core.old.desk.place }
{
    let mut seat = seat;
    seat.learn::<Note>(core.tell::<Note>());
    seat
}

// Makes so many readers.
fn admit(core: &Core, readers: &mut Vec<ShelfReader>, count: u32) -> Result<(), AllocError>
    ensures len { OnOk result (vec_len readers.new ≡ vec_len readers.old + count) }
    ensures fresh { All (λ r. r ≡ unread core.now.desk.place.table_id) readers.old.items
        → All (λ r. r ≡ unread core.now.desk.place.table_id) readers.new.items }
{
    for _ in 0..count {
        let seat = core.factory().reader()?;
        readers
            .push(ShelfReader::over(seat))
            .map_err(AllocError::from)?;
    }
    Ok(())
}

/// Makes a shelf with nothing on it, and its readers, 1 to 16 of them. There are 16 places more, for what is told and not yet learnt. It
/// needs leave to wait for the one case that a shelf which was made can't be handed out: then it is taken apart, with nobody inside.
pub fn make<R: Wait>(
    rt: &R,
    alloc: Global,
    readers: u32,
) -> Result<(ShelfWriter, Readers), NoMemory>
    requires { (0 < readers) × (readers ≤ 16) }
    ensures writer { IfOk result (λ r. r.0 ≡ bare r.0.table) }
    ensures readers { IfOk result (λ r. (length r.1 ≡ readers) × All (λ d. d ≡ unread r.0.table) r.1) }
{
    let mut items = Vec::new(alloc);
    let core: Core = Writer::new(alloc, Stock::new(alloc), Stock::new(alloc), 32)?;
    match admit(&core, &mut items, readers) {
        Ok(()) => {
            let name = ShelfName {
                made: Snapshot::of(core.factory()),
            };
            let past = Past::none();
            Ok((
                ShelfWriter {
                    alloc,
                    core,
                    name,
                    past,
                },
                Readers { items },
            ))
        }
        Err(_) => {
            core.take(rt);
            Err(NoMemory)
        }
    }
}
