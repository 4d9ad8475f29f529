//! The bytes of a box that was begun.
ghost use Rattle.std.specs.Prelude.{◌≡◌, [], ◌++◌, length, OnOk};

use sm_model::{Bytes, NoMemory};
use std::alloc::Global;
use std::marker::Model;
use std::mem;

/// Bytes that come one piece after the other, which contracts see as a list.
#[derive(Debug, Drop)]
pub struct Held {
    items: Vec<u8>,
}

impl Model for Held {
    ghost use Rattle.std.specs.Prelude.{List, ℕ};

    ghost Value = { List ℕ };

    ghost view = { λ h. h.items.items };
}

impl Held {
    /// No bytes.
    pub fn new(alloc: Global) -> Held
        ensures { result ≡ [] }
    {
        Held {
            items: Vec::new(alloc),
        }
    }

    /// Takes the memory for so many bytes in all, where it isn't there yet. The bytes stay as they are.
    pub fn reserve(&mut self, alloc: Global, size: usize) -> Result<(), NoMemory>
        ensures same { self.new ≡ self.old }
    {
        if self.items.capacity() < size {
            let mut items = Vec::with_capacity(alloc, size)?;
            items.extend_from_slice(&self.items)?;
            self.items = items;
        }
        Ok(())
    }

    /// Further bytes at the end.
    pub fn extend(&mut self, bytes: &[u8]) -> Result<(), NoMemory>
        ensures { OnOk result (self.new ≡ self.old ++ bytes.now) }
    {
        self.items.extend_from_slice(bytes)?;
        Ok(())
    }

    /// The bytes, without a copy. None are left.
    pub fn take(&mut self, alloc: Global) -> Bytes
        ensures taken { result ≡ self.old }
        ensures left { self.new ≡ [] }
    {
        Bytes::from_vec(mem::replace(&mut self.items, Vec::new(alloc)))
    }

    /// Drops the bytes.
    pub fn clear(&mut self)
        ensures { self.new ≡ [] }
    {
        self.items.clear();
    }

    /// The bytes, lent.
    pub fn as_slice(&self) -> &[u8]
        ensures { result.now ≡ self.now }
    {
        &self.items
    }

    /// How many bytes there are.
    pub fn len(&self) -> u64
        ensures { result ≡ length self.now }
    {
        self.items.len() as u64
    }
}
