//! Addresses whose place in the log comes later.
ghost use Rattle.std.specs.Prelude.{◌≡◌, ◌==◌, ◌++◌, ◌∷◌, [], List, OnOk, OnErr, IfSome, IfNone};
ghost use Rattle.std.specs.List.{position};
ghost use Rattle.sm_standby.specs.Waiting.{due, is_of, without, waits, IsLeast};

use sm_model::{Address, NoMemory};
use std::alloc::Global;
use std::marker::Model;

/// An address, and the place in the log of what stands there.
#[derive(Debug, Drop)]
pub struct Later {
    pub place: u64,
    pub address: Address,
}

/// Addresses whose place in the log comes later, as they were found. Contracts see a list.
#[derive(Debug, Drop)]
pub struct Held {
    items: Vec<Later>,
}

impl Model for Held {
    ghost use Rattle.std.specs.Prelude.{List};
    ghost use Rattle.sm_standby.specs.declared.held.Later.{Later};

    ghost Value = { List Later };

    ghost view = { λ h. h.items.items };
}

// Where the first one of that place stands.
fn place_of(items: &[Later], place: u64) -> Option<usize>
    ensures { result ≡ position (λ l. l.place == place) items.now }
{
    items.iter().position(|later| later.place == place)
}

// Whether these are one address. Their starts differ most often, so they are held beside each other first.
fn is_of(one: &Address, other: &Address) -> bool
    ensures { result ≡ is_of one.now other.now }
{
    one.time == other.time && one.bitrate == other.bitrate && one.stream == other.stream
}

impl Held {
    /// None.
    pub fn new(alloc: Global) -> Held
        ensures { result ≡ [] }
    {
        Held {
            items: Vec::new(alloc),
        }
    }

    /// One more, behind the others.
    pub fn add(&mut self, place: u64, address: Address) -> Result<(), NoMemory>
        ensures ok { OnOk result (self.new ≡ self.old ++ (record { place = place; address = address }) ∷ []) }
        ensures err { OnErr result (self.new ≡ self.old) }
    {
        self.items.push(Later { place, address })?;
        Ok(())
    }

    /// Whether that address waits.
    pub fn has(&self, address: &Address) -> bool
        ensures { result ≡ waits address.now self.now }
    {
        self.items
            .iter()
            .any(|later| is_of(address, &later.address))
    }

    /// Takes out the first one of that place.
    pub fn take(&mut self, place: u64) -> Option<Later>
        ensures due { result ≡ due place self.old }
        ensures rest { self.new ≡ without place self.old }
    {
        match place_of(&self.items, place) {
            Some(at) => Some(self.items.remove(at)),
            None => None,
        }
    }

    /// The least of their places.
    pub fn least(&self) -> Option<u64>
        ensures some { IfSome result (IsLeast self.now) }
        ensures none { IfNone result (self.now ≡ []) }
    {
        self.items.iter().map(|later| later.place).min()
    }
}
