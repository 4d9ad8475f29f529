//! The value that is published.
ghost use Rattle.std.specs.Prelude.{◌≡◌, ◌↔◌, ◌≢◌, ◌≤◌, ◌<◌, ◌+◌, ◌^◌, ◌∷◌, ◌++◌, [], ℕ, true, false, List, None, Some, length, map, slice_get};
ghost use Rattle.std.specs.Prelude.{All, IsTrue, IsSome, IfOk, IfSome, IfNone, OnOk, OnErr, MatchResult};
ghost use Rattle.std.specs.Arc.{arc_value};
ghost use Rattle.std.specs.Option.{ForSome};
ghost use Rattle.sm_model.specs.Channels.{IsChannel};
ghost use Rattle.sm_model.specs.declared.fragment.Fragment.{Fragment};
ghost use Rattle.sm_model.specs.Entries.{address_of};
ghost use Rattle.sm_model.specs.Fragments.{IsValid};
ghost use Rattle.sm_log.specs.Adds.{Add};
ghost use Rattle.sm_log.specs.Digests.{Extends};
ghost use Rattle.sm_shelf.specs.Parts.{stripped, addresses_in, IsListing, IsEnd, channel_in, added_in};
ghost use Rattle.sm_shelf.specs.Laying.{nothing, declared, is_new, is_span, is_next, filled, kept};
ghost use Rattle.sm_shelf.specs.Shelf.{applied, height_of};
ghost use Rattle.sm_shelf.specs.Shown.{IsHeld, IsNotHeld, IsTaken, IsFound, IsListingOf, ahead_by};

use crate::found::{Found, Held, Listing};
use crate::laid::{Laid, What};
use crate::window::Window;
use left_right::Absorb;
use sm_catalog::Catalog;
use sm_log::Judged;
use sm_model::{Address, Channel, Fragment, NoMemory};
use sm_reply::manifest_reply;
use std::alloc::{AllocError, Global};
use std::marker::Model;
use std::sync::Arc;

/// The catalog of what was added, and the last fragments. Contracts see the digest.
#[derive(Drop)]
pub struct Stock {
    alloc: Global,
    catalog: Option<Catalog>,
    window: Window,
}

impl Model for Stock {
    ghost use Rattle.sm_log.specs.Digests.{Digest};
    ghost use Rattle.sm_shelf.specs.Parts.{channel_in, told_in, IsStocked};

    ghost Value = { Digest };

    ghost view = { λ s. record { channel = channel_in s.catalog; adds = told_in s.catalog; window = s.window } };

    ghost invariant = { λ s. IsStocked s.catalog s.window };
}

fn is_new(verdict: Judged) -> bool
    ensures { result ≡ is_new verdict }
{
    match verdict {
        Judged::New => true,
        _ => false,
    }
}

fn is_span(time: u64, duration: u64) -> bool
    ensures { result ≡ is_span time duration }
{
    0 < duration && duration < 1 << 63 && time < (1 << 63) - duration
}

fn copy_catalog(alloc: Global, catalog: &Option<Catalog>) -> Result<Option<Catalog>, NoMemory>
    ensures channel { IfOk result (λ o. channel_in o ≡ channel_in catalog.now) }
    ensures adds { IfOk result (λ o. added_in o ≡ added_in catalog.now) }
{
    match catalog {
        None => Ok(None),
        Some(catalog) => Ok(Some(catalog.copy(alloc)?)),
    }
}

// The channel, for one who doesn't have it.
fn channel_for(alloc: Global, catalog: &Catalog, knows: bool) -> Result<Option<Channel>, NoMemory>
    ensures given { IfOk result (λ o. knows ≡ false → IsSome o) }
    ensures same { IfOk result (λ o. ForSome o (λ c. (c ≡ catalog.now.channel) × IsChannel c)) }
{
    if knows {
        return Ok(None);
    }
    Ok(Some(catalog.channel().copy(alloc)?))
}

// Whether what the one has added goes on from what the other has, in one channel.
fn go_on(a: &Catalog, b: &Catalog) -> bool
    requires { length b.now.adds < 2 ^ 32 }
    ensures { IsTrue result ↔ ((a.now.channel ≡ b.now.channel) × ((more : List Add) × (a.now.adds ≡ b.now.adds ++ more))) }
{
    if !a.channel().is_same(b.channel()) {
        return false;
    }
    for i in 0..b.len() {
        if a.added(i) != b.added(i) {
            return false;
        }
    }
    true
}

// The index in the window of what stands at that address. Its place in the log tells it.
fn seek(catalog: &Catalog, window: &Window, address: &Address) -> Option<usize>
    requires listing { IsListing catalog.now.adds }
    requires within { length window.now ≤ length catalog.now.adds }
    requires last { IsEnd (addresses_in catalog.now.adds) (map address_of window.now) }
    ensures found { IfSome result (λ i. (f : Fragment) × (slice_get window.now i ≡ Some f) × (address_of f ≡ address.now)) }
    ensures missing { IfNone result ((i : ℕ) (f : Fragment) → slice_get window.now i ≡ Some f → address_of f ≢ address.now) }
{
    let passed = catalog.len() - window.len();
    let Some(place) = catalog.place(address) else {
        return None;
    };
    if place <= passed {
        return None;
    }
    let i = (place - passed - 1) as usize;
    if i as u64 >= window.len() {
        return None;
    }
    if window.has(i, address) {
        Some(i)
    } else {
        None
    }
}

// The fragment at that index, taken out.
fn take(
    alloc: Global,
    catalog: &Catalog,
    window: &Window,
    i: usize,
    address: &Address,
    knows: bool,
) -> Result<Held, NoMemory>
    requires listing { IsListing catalog.now.adds }
    requires within { length window.now ≤ length catalog.now.adds }
    requires there { (f : Fragment) × (slice_get window.now i ≡ Some f) × (address_of f ≡ address.now) }
    ensures { IfOk result (IsTaken (record { channel = Some catalog.now.channel; adds = map stripped catalog.now.adds; window = window.now }) address.now knows) }
{
    Ok(Held {
        place: catalog.len() - window.len() + 1 + i as u64,
        first: catalog.ahead(&address.stream, address.time, 0),
        second: catalog.ahead(&address.stream, address.time, 1),
        fragment: Arc::try_clone(window.block(i))?,
        channel: channel_for(alloc, catalog, knows)?,
    })
}

impl Stock {
    /// Nothing.
    pub fn new(alloc: Global) -> Stock
        ensures { result ≡ nothing }
    {
        Stock {
            alloc,
            catalog: None,
            window: Window::new(alloc),
        }
    }

    /// What was added to a catalog, and the fragments that were added last.
    pub fn over(alloc: Global, catalog: Catalog, window: Window) -> Stock
        requires listing { IsListing catalog.adds }
        requires within { length window ≤ length catalog.adds }
        requires last { IsEnd (addresses_in catalog.adds) (map address_of window) }
        ensures { result ≡ record { channel = Some catalog.channel; adds = map stripped catalog.adds; window = window } }
    {
        Stock {
            alloc,
            catalog: Some(catalog),
            window,
        }
    }

    /// How many entries of a log it stands for: the channel and what was added.
    pub fn height(&self) -> u64
        ensures { result ≡ height_of self.now }
    {
        match &self.catalog {
            None => 0,
            Some(catalog) => catalog.len() + 1,
        }
    }

    /// Whether it goes on from the other. It looks at all that the other has added.
    pub fn goes_on(&self, other: &Stock) -> bool
        ensures { IsTrue result ↔ Extends self.now other.now }
    {
        match (&self.catalog, &other.catalog) {
            (_, None) => true,
            (None, Some(_)) => false,
            (Some(a), Some(b)) => go_on(a, b),
        }
    }

    /// What is found at an address, for a reader that knows the channel or doesn't.
    pub fn find(&self, alloc: Global, address: &Address, knows: bool) -> Found
        ensures { IsFound self.now address.now knows result }
    {
        let Some(catalog) = &self.catalog else {
            return Found::Forward;
        };
        let Some(i) = seek(catalog, &self.window, address) else {
            return Found::Forward;
        };
        match take(alloc, catalog, &self.window, i, address, knows) {
            Ok(held) => Found::Held(held),
            Err(NoMemory) => Found::NoMemory,
        }
    }

    /// What is said of the manifest to a reader that knows the one behind so many that were added.
    pub fn list(&self, alloc: Global, known: Option<u64>) -> Listing
        ensures { IsListingOf self.now known result }
    {
        let Some(catalog) = &self.catalog else {
            return Listing::Undeclared;
        };
        if known == Some(catalog.len()) {
            return Listing::Same;
        }
        match manifest_reply(alloc, Some(catalog)) {
            Ok(reply) => Listing::New(catalog.len(), reply.bytes),
            Err(NoMemory) => Listing::NoMemory,
        }
    }

    // Whether it stands at the place behind the last, and may stand there.
    fn is_next(&self, place: u64, address: &Address, duration: u64) -> bool
        ensures { result ≡ is_next self.now place address.now duration }
    {
        match &self.catalog {
            None => false,
            Some(catalog) => {
                place == catalog.len() + 1
                    && place < 4_294_967_295
                    && is_new(catalog.judge(address, duration))
                    && is_span(address.time, duration)
            }
        }
    }

    // An equal one, which holds the same blocks.
    fn copy(&self, alloc: Global) -> Result<Stock, NoMemory>
        ensures { IfOk result (λ s. s ≡ self.now) }
    {
        Ok(Stock {
            alloc,
            catalog: copy_catalog(alloc, &self.catalog)?,
            window: self.window.copy(alloc)?,
        })
    }

    fn fill(&mut self, all: &Stock) -> Result<(), NoMemory>
        ensures ok { OnOk result (self.new ≡ filled self.old all.now) }
        ensures err { OnErr result (self.new ≡ self.old) }
    {
        if self.catalog.is_some() {
            return Ok(());
        }
        *self = all.copy(self.alloc)?;
        Ok(())
    }

    // The same, where the other is used up.
    fn turn_into(&mut self, all: Stock)
        ensures { self.new ≡ filled self.old all }
    {
        if self.catalog.is_none() {
            *self = all;
        }
    }

    fn keep(&mut self, place: u64, fragment: &Arc<Fragment>) -> Result<(), NoMemory>
        requires { IsValid (arc_value fragment.now) }
        ensures ok { OnOk result (self.new ≡ kept self.old place (arc_value fragment.now)) }
        ensures err { OnErr result (self.new ≡ self.old) }
    {
        let address = Address::of(self.alloc, fragment)?;
        let duration = fragment.duration;
        if !self.is_next(place, &address, duration) {
            return Ok(());
        }
        let Some(catalog) = &mut self.catalog else {
            return Ok(());
        };
        // That it is new says that its track is declared.
        let _ = catalog.judge(&address, duration);
        catalog.reserve(&address)?;
        self.window.push(fragment)?;
        catalog.add(&address, duration, place);
        Ok(())
    }
}

impl Absorb<Laid> for Stock {
    type State = Stock;

    ghost state = { λ d. d };

    ghost applied = { applied };

    fn absorb_first(&mut self, operation: &Laid, _other: &Stock) -> Result<(), AllocError> {
        let done = match &operation.what {
            What::Fill(all) => self.fill(all),
            What::Keep(place, fragment) => self.keep(*place, fragment),
        };
        done.map_err(|_| AllocError)
    }
}
