//! A list of bytes.
ghost use Rattle.std.specs.Prelude.{◌≡◌, ◌==◌, length, take, IfOk};

use crate::{NoMemory, Part};
use std::alloc::Global;
use std::marker::Model;

/// Where bytes lie.
#[derive(Debug, Drop)]
pub enum Store {
    /// In a block of their own.
    Own(Vec<u8>),
    /// In a block that has several owners.
    Part(Part),
}

/// Bytes, which contracts see as a list. They are owned, or a part of a block that has several owners and is never written again.
#[derive(Debug, Drop)]
pub struct Bytes {
    store: Store,
}

impl Model for Bytes {
    ghost use Rattle.std.specs.Prelude.{List, ℕ};
    ghost use Rattle.sm_model.specs.Stored.{stored};

    ghost Value = { List ℕ };

    ghost view = { λ b. stored b.store };
}

impl Bytes {
    /// A copy of these bytes.
    pub fn from_slice(alloc: Global, bytes: &[u8]) -> Result<Bytes, NoMemory>
        ensures { IfOk result (λ copy. copy ≡ bytes.now) }
    {
        Ok(Bytes {
            store: Store::Own(Vec::from_slice(alloc, bytes)?),
        })
    }

    /// These bytes, without a copy.
    pub fn from_vec(items: Vec<u8>) -> Bytes
        ensures { result ≡ items.items }
    {
        Bytes {
            store: Store::Own(items),
        }
    }

    /// This part, without a copy and without memory.
    pub fn from_part(part: Part) -> Bytes
        ensures { result ≡ part }
    {
        Bytes {
            store: Store::Part(part),
        }
    }

    /// Equal bytes. Those of a block that has several owners are not copied: they have one owner more.
    pub fn again(&self, alloc: Global) -> Result<Bytes, NoMemory>
        ensures { IfOk result (λ copy. copy ≡ self.now) }
    {
        match &self.store {
            Store::Own(items) => Bytes::from_slice(alloc, items),
            Store::Part(part) => Ok(Bytes::from_part(part.again()?)),
        }
    }

    /// These bytes as a part of a block that may get further owners, without a copy.
    pub fn into_part(self, alloc: Global) -> Result<Part, NoMemory>
        ensures { IfOk result (λ part. part ≡ self) }
    {
        match self.store {
            Store::Own(items) => Part::from_vec(alloc, items),
            Store::Part(part) => Ok(part),
        }
    }

    /// The bytes back. Those of a block that has several owners are copied.
    pub fn into_vec(self, alloc: Global) -> Result<Vec<u8>, NoMemory>
        ensures { IfOk result (λ vec. vec.items ≡ self) }
    {
        match self.store {
            Store::Own(items) => Ok(items),
            Store::Part(part) => Ok(Vec::from_slice(alloc, part.as_slice())?),
        }
    }

    /// Leaves so many of the first bytes, and all where there are no more.
    pub fn truncate(&mut self, count: usize)
        ensures { self.new ≡ take count self.old }
    {
        match &mut self.store {
            Store::Own(items) => items.truncate(count),
            Store::Part(part) => part.truncate(count),
        }
    }

    /// The bytes, lent.
    pub fn as_slice(&self) -> &[u8]
        ensures { result.now ≡ self.now }
    {
        match &self.store {
            Store::Own(items) => items,
            Store::Part(part) => part.as_slice(),
        }
    }

    /// How many bytes there are.
    pub fn len(&self) -> u64
        ensures { result ≡ length self.now }
    {
        match &self.store {
            Store::Own(items) => items.len() as u64,
            Store::Part(part) => part.len(),
        }
    }

    /// Whether there are none.
    pub fn is_empty(&self) -> bool
        ensures { result ≡ (length self.now == 0) }
    {
        self.len() == 0
    }
}
