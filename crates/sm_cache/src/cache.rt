//! The cache.
ghost use Rattle.std.specs.Prelude.{◌≡◌, ◌≤◌, [], length, option_copied, IfOk, OnOk, OnErr};
ghost use Rattle.std.specs.Borrow.{sem};
ghost use Rattle.std.specs.Map.{lookup};
ghost use Rattle.lru.specs.LruCache.{lru_cache, promoted, put_entries};
ghost use Rattle.sm_model.specs.Entries.{address_of};
ghost use Rattle.sm_cache.specs.Pairs.{is_one_address};
ghost use Rattle.sm_cache.specs.Lending.{EndsAs};

use lru::LruCache;
use sm_model::{Address, Fragment, NoMemory};
use std::alloc::Global;
use std::marker::Model;
use std::num::NonZeroUsize;

/// A fragment that is kept, with its place in the log.
#[derive(Debug, Drop)]
pub struct Kept {
    /// Its place among the entries of the log, from 0.
    pub place: u64,
    pub fragment: Fragment,
}

/// The kept fragments that were used last, each at its address. Contracts see the pairs, the one used last first, and how many
/// there may be.
#[derive(Drop)]
pub struct Cache {
    pairs: LruCache<Address, Kept>,
}

impl Model for Cache {
    ghost use Rattle.lru.specs.LruCache.{LruCache};
    ghost use Rattle.sm_model.specs.declared.address.Address.{Address};
    ghost use Rattle.sm_cache.specs.declared.cache.Kept.{Kept};

    ghost Value = { LruCache Address Kept };

    ghost view = { λ c. c.pairs };
}

impl Cache {
    /// An empty cache for so many fragments, at least one.
    pub fn new(alloc: Global, capacity: usize) -> Result<Cache, NoMemory>
        requires { 1 ≤ capacity }
        ensures { IfOk result (λ cache. cache ≡ lru_cache [] capacity) }
    {
        let Some(capacity) = NonZeroUsize::new(capacity) else {
            unreachable!()
        };
        Ok(Cache {
            pairs: LruCache::new(alloc, capacity)?,
        })
    }

    /// What is kept at an address, if it is in the cache; it is then the one used last. It takes no memory.
    pub fn get(&mut self, address: &Address) -> Option<&Kept>
        ensures* promotes { sem 𝓛 (EndsAs self.entry (promoted (is_one_address address.now) self.old.entries)) }
        ensures value { option_copied result ≡ lookup (is_one_address address.now) self.old.entries }
    {
        self.pairs.get(address)
    }

    /// What is kept at an address, if it is in the cache; the order of use stays as it is. It takes no memory.
    pub fn peek(&self, address: &Address) -> Option<&Kept>
        ensures { option_copied result ≡ lookup (is_one_address address.now) self.now.entries }
    {
        self.pairs.peek(address)
    }

    /// Puts a fragment in front of all others, in place of the one at its address or, where the cache is full, of the one
    /// that was used the longest time ago. Without memory the fragment is dropped and the cache stays as it is.
    pub fn put(&mut self, alloc: Global, place: u64, fragment: Fragment) -> Result<(), NoMemory>
        ensures pairs { OnOk result (self.new ≡ lru_cache
            (put_entries is_one_address self.old (address_of fragment) (record { place = place; fragment = fragment })) self.old.cap) }
        ensures same { OnErr result (self.new ≡ self.old) }
    {
        let address = Address::of(alloc, &fragment)?;
        self.pairs.put(address, Kept { place, fragment })?;
        Ok(())
    }
}
