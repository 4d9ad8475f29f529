//! The origin.
ghost use Rattle.std.specs.Prelude.{◌≡◌, ◌≤◌, ◌<◌, ◌^◌, [], IfOk};
ghost use Rattle.lru.specs.LruCache.{lru_cache};
ghost use Rattle.sm_origin.specs.declared.origin.Origin.{Origin};
ghost use Rattle.sm_origin.specs.Opening.{Opens};
ghost use Rattle.sm_origin.specs.Seen.{archive_of, cache_of};

use sm_archive::{Archive, Limits, OpenFault, open_store};
use sm_cache::Cache;
use sm_model::NoMemory;
use sm_site::Site;
use std::alloc::Global;

/// The origin of one store: its archive, and the 16 fragments that were used last.
#[derive(Drop)]
pub struct Origin {
    pub(crate) archive: Archive,
    pub(crate) cache: Cache,
}

impl Origin {
    /// Opens the store of a site under these limits. A file that is fresh is made; nothing else is written.
    pub fn open_origin<S: Site>(
        alloc: Global,
        site: &mut S,
        limits: Limits,
    ) -> Result<Origin, OpenFault>
        requires bytes { limits.store_bytes ≤ 2 ^ 62 }
        requires entries { limits.entries < 2 ^ 32 }
        ensures opens { Opens S.Disk.seen (λ (o : Origin). o) site.old site.new limits result }
        ensures empty { IfOk result (λ o. cache_of o ≡ lru_cache [] 16) }
    {
        match Cache::new(alloc, 16) {
            Err(NoMemory) => Err(OpenFault::NoMemory),
            Ok(cache) => match open_store(alloc, site, limits) {
                Err(fault) => Err(fault),
                Ok(archive) => Ok(Origin { archive, cache }),
            },
        }
    }

    /// The archive of the store.
    pub fn archive(&self) -> &Archive
        ensures { result.now ≡ archive_of self.now }
    {
        &self.archive
    }

    /// The fragments that were used last.
    pub fn cache(&self) -> &Cache
        ensures { result.now ≡ cache_of self.now }
    {
        &self.cache
    }
}
