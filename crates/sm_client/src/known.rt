//! Starts that are known.
ghost use Rattle.std.specs.Prelude.{◌≡◌, ◌≤◌, ◌<◌, ◌==◌, ◌||◌, ◌&&◌, ℕ, true, false, [], length, nat_le, IfSome, IfNone, IfErr, IsOk, OnOk, OnErr};
ghost use Rattle.sm_client.specs.Starts.{has, Falls, place_in};

use sm_model::NoMemory;
use std::alloc::Global;
use std::marker::Model;

/// Starts, each once and the lowest last, so that those which are passed go without a move of the others. Contracts see a list.
#[derive(Debug, Drop)]
pub struct Known {
    starts: Vec<u64>,
}

impl Model for Known {
    ghost use Rattle.std.specs.Prelude.{List, ℕ};
    ghost use Rattle.sm_client.specs.Starts.{Falls};

    ghost Value = { List ℕ };

    ghost view = { λ k. k.starts.items };

    ghost invariant = { λ k. Falls k.starts.items };
}

// How many stand above that start.
fn place_of(starts: &[u64], start: u64) -> usize
    requires { Falls starts.now }
    ensures { result ≡ place_in start starts.now }
{
    starts.partition_point(|s| *s > start)
}

// Whether that start is there, or else where it belongs.
fn find(starts: &[u64], start: u64) -> Result<usize, usize>
    requires { Falls starts.now }
    ensures found { IsOk result → has start starts.now ≡ true }
    ensures absent { IfErr result (λ i. (i ≡ place_in start starts.now) × (i ≤ length starts.now) × (has start starts.now ≡ false)) }
{
    let place = place_of(starts, start);
    if place < starts.len() && starts[place] == start {
        Ok(place)
    } else {
        Err(place)
    }
}

impl Known {
    /// None.
    pub fn new(alloc: Global) -> Known
        ensures { result ≡ [] }
    {
        Known {
            starts: Vec::new(alloc),
        }
    }

    /// One start more, if it isn't there.
    pub fn add(&mut self, start: u64) -> Result<(), NoMemory>
        ensures has { OnOk result ((k : ℕ) → has k self.new ≡ (has k self.old || start == k)) }
        ensures err { OnErr result (self.new ≡ self.old) }
        ensures falls { Falls self.new }
    {
        match find(&self.starts, start) {
            Ok(_) => Ok(()),
            Err(place) => {
                self.starts.insert(place, start)?;
                Ok(())
            }
        }
    }

    /// Lets go those before a start.
    pub fn forget(&mut self, before: u64)
        ensures has { (k : ℕ) → has k self.new ≡ (nat_le before k && has k self.old) }
        ensures falls { Falls self.new }
    {
        if before > 0 {
            let kept = place_of(&self.starts, before - 1);
            self.starts.truncate(kept);
        }
    }

    /// The lowest one.
    pub fn lowest(&self) -> Option<u64>
        ensures some { IfSome result (λ n. (has n self.now ≡ true) × ((k : ℕ) → has k self.now ≡ true → n ≤ k)) }
        ensures none { IfNone result (self.now ≡ []) }
    {
        self.starts.last().copied()
    }

    /// How many there are.
    pub fn len(&self) -> u64
        ensures len { result ≡ length self.now }
        ensures falls { Falls self.now }
    {
        self.starts.len() as u64
    }
}
