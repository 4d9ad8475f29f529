//! Numbers of calls.
ghost use Rattle.std.specs.Prelude.{◌≡◌, length};
ghost use Rattle.sm_site.specs.Faults.{is_listed};

use std::marker::Model;

/// Numbers of calls, from 1: those that are to fail. Contracts see them as a list.
#[derive(Debug, Drop)]
pub struct Numbers {
    items: Vec<u64>,
}

impl Model for Numbers {
    ghost use Rattle.std.specs.Prelude.{List, ℕ};

    ghost Value = { List ℕ };

    ghost view = { λ n. n.items.items };
}

impl Numbers {
    /// These numbers, without a copy.
    pub fn from_vec(items: Vec<u64>) -> Numbers
        ensures { result ≡ items.items }
    {
        Numbers { items }
    }

    /// The numbers back, without a copy.
    pub fn into_vec(self) -> Vec<u64>
        ensures { result.items ≡ self }
    {
        self.items
    }

    /// The numbers, lent.
    pub fn as_slice(&self) -> &[u64]
        ensures { result.now ≡ self.now }
    {
        &self.items
    }

    /// How many numbers there are.
    pub fn len(&self) -> u64
        ensures { result ≡ length self.now }
    {
        self.items.len() as u64
    }

    /// Whether a number is among them.
    pub fn contains(&self, number: u64) -> bool
        ensures { result ≡ is_listed number self.now }
    {
        self.items.iter().any(|item| *item == number)
    }
}
