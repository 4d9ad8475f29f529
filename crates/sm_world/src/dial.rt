//! An origin on a site.
ghost use Rattle.std.specs.Prelude.{◌≡◌, ◌≤◌, ◌<◌, ◌^◌, [], ℕ, List, None, Some, IfSome, length};
ghost use Rattle.sm_model.specs.declared.entry.Entry.{Entry};
ghost use Rattle.sm_site.specs.Clauses.{SameOutcomes, Settled};
ghost use Rattle.sm_site.specs.Image.{bytes_of};
ghost use Rattle.sm_archive.specs.Store.{IsStore};
ghost use Rattle.sm_world.specs.Answering.{one_more};
ghost use Rattle.sm_world.specs.Dialing.{next_number};
ghost use Rattle.sm_world.specs.Worlds.{World, Stands, Crashes};

use sm_archive::Limits;
use sm_fetch::Exchange;
use sm_origin::law::{an_image_fits, fewer_images_stand};
use sm_serve::State;
use sm_site::{Crashing, Numbers};
use std::alloc::Global;
use std::marker::Model;

/// An origin on a site, as a dial. Each exchange opens a connection of its own on the site, hands the request over, and serves until
/// nothing more comes; the store is opened by the first exchange, and by the next one after a crash or after an opening that failed.
///
/// Exchanges have numbers, from 1: the reply of those in one list is lost, and of those in another only the first half of it
/// comes. One that wants memory isn't told and has no number. Contracts see a dial as its site and what is kept beside it.
#[derive(Drop)]
pub struct OriginDial<S: Crashing> {
    pub(crate) alloc: Global,
    pub(crate) site: S,
    pub(crate) state: Option<State>,
    pub(crate) limits: Limits,
    pub(crate) lost: Numbers,
    pub(crate) cut: Numbers,
    // so many exchanges were told before they were counted from 1
    pub(crate) since: usize,
    pub(crate) made: Vec<Exchange>,
    pub(crate) faults: u64,
    pub(crate) crashes: u64,
}

impl<S: Crashing> Model for OriginDial<S> {
    ghost use Rattle.std.specs.Prelude.{ℕ, ◌≤◌, ◌<◌, ◌^◌, length};
    ghost use Rattle.sm_world.specs.Dialing.{Dialing};
    ghost use Rattle.sm_world.specs.Worlds.{World, Stands};

    ghost Value = { S × Dialing };

    ghost view = { λ d. (
      d.site,
      record {
        state = d.state;
        limits = d.limits;
        lost = d.lost;
        cut = d.cut;
        since = d.since;
        made = d.made.items;
        faults = d.faults;
        crashes = d.crashes;
      },
    ) };

    ghost invariant = { λ d. (d.limits.store_bytes ≤ 2 ^ 62) × (d.limits.entries < 2 ^ 32)
        × ((w : World) × Stands S.Disk.seen w d.state d.site)
        × (d.since ≤ length d.made.items) };
}

impl<S: Crashing> OriginDial<S> {
    /// A dial to the store of a site, under these limits, with the numbers of the exchanges whose reply is lost, and of those whose
    /// reply is cut. Nothing is opened yet.
    pub fn new(alloc: Global, site: S, limits: Limits, lost: Numbers, cut: Numbers) -> OriginDial<S>
        requires bytes { limits.store_bytes ≤ 2 ^ 62 }
        requires entries { limits.entries < 2 ^ 32 }
        requires settled { IfSome (S.Disk.seen.view site).contents (λ now. Settled now (S.Disk.seen.may_leave site)) }
        requires store { IfSome (S.Disk.seen.view site).contents (λ now. (log : List Entry) × IsStore log now) }
        ensures site { result.0 ≡ site }
        ensures dialing { result.1 ≡ record { state = None; limits = limits; lost = lost; cut = cut; since = 0; made = []; faults = 0; crashes = 0 } }
        ensures stands { (log : List Entry) → IfSome (S.Disk.seen.view site).contents (IsStore log)
            → Stands S.Disk.seen (record { first = log; past = S.openings site; log = log }) None result.0 }
    {
        OriginDial {
            alloc,
            site,
            state: None,
            limits,
            lost,
            cut,
            since: 0,
            made: Vec::new(alloc),
            faults: 0,
            crashes: 0,
        }
    }

    /// The exchanges so far, but for those that wanted memory.
    pub fn exchanges(&self) -> &[Exchange]
        ensures { result.now ≡ self.now.1.made }
    {
        &self.made
    }

    /// Crashes the site. What it keeps is one of the images that a crash may leave, chosen by the number; the next exchange opens
    /// the store again.
    pub fn crash(&mut self, choice: u8)
        ensures crashes { (w : World) → Stands S.Disk.seen w self.old.1.state self.old.0
            → (now : World) × Stands S.Disk.seen now self.new.1.state self.new.0 × Crashes (S.Disk.seen.view self.old.0).transcript w now }
        ensures image { IfSome (S.Disk.seen.view self.new.0).contents (S.Disk.seen.may_leave self.old.0) }
        ensures kept { IfSome (S.Disk.seen.view self.new.0).contents (λ now. (file : ℕ) → bytes_of now file ≡ bytes_of (S.left_by self.old.0 choice) file) }
        ensures dialing { self.new.1 ≡ record self.old.1 { state = None; crashes = one_more self.old.1.crashes } }
        ensures starved { S.is_starved self.new.0 ≡ S.is_starved self.old.0 }
        ensures stop { S.stop self.new.0 ≡ None }
    {
        an_image_fits::<S>();
        self.site.crash_here(choice);
        self.state = None;
        self.crashes = self.crashes.saturating_add(1);
    }

    /// How often it was crashed. The count stands still at 2^64 - 1.
    pub fn crashes(&self) -> u64
        ensures { result ≡ self.now.1.crashes }
    {
        self.crashes
    }

    /// The site.
    pub fn into_site(self) -> S
        ensures { result ≡ self.0 }
    {
        let OriginDial { site, .. } = self;
        site
    }

    /// Counts the exchanges from 1 again, with these lists.
    pub fn renumber(&mut self, lost: Numbers, cut: Numbers)
        ensures site { self.new.0 ≡ self.old.0 }
        ensures dialing { self.new.1 ≡ record self.old.1 { lost = lost; cut = cut; since = length self.old.1.made } }
    {
        self.lost = lost;
        self.cut = cut;
        self.since = self.made.len();
    }

    // The number of the next exchange.
    pub(crate) fn number(&self) -> u64
        ensures { result ≡ next_number self.now.1 }
    {
        (self.made.len() - self.since) as u64 + 1
    }

    /// Lets so many further writes and syncs of the site pass. All behind them fail, up to the next crash.
    pub fn stop_after(&mut self, calls: u64)
        ensures stands { (w : World) → Stands S.Disk.seen w self.old.1.state self.old.0 → Stands S.Disk.seen w self.new.1.state self.new.0 }
        ensures view { S.Disk.seen.view self.new.0 ≡ S.Disk.seen.view self.old.0 }
        ensures outcomes { SameOutcomes (S.Disk.seen.may_leave self.old.0) (S.Disk.seen.may_leave self.new.0) }
        ensures dialing { self.new.1 ≡ self.old.1 }
        ensures starved { S.is_starved self.new.0 ≡ S.is_starved self.old.0 }
        ensures stop { S.stop self.new.0 ≡ Some calls }
    {
        fewer_images_stand::<S>();
        self.site.stop_after(calls);
    }

    /// Whether the memory of the site has run out.
    pub fn starved(&self) -> bool
        ensures { result ≡ S.is_starved self.now.0 }
    {
        self.site.starved()
    }
}
