//! What an archive holds in memory of the entries of a log.
ghost use Rattle.std.specs.Prelude.{◌≡◌, ℕ, ◌+◌, ◌≤◌, ◌<◌, ◌^◌, List, [], ◌∷◌, ◌++◌, Some, IfOk, OnOk, IsTrue};
ghost use Rattle.sm_model.specs.Channels.{IsChannel};
ghost use Rattle.sm_log.specs.declared.verdict.Judged.TheVariants.{New};
ghost use Rattle.sm_log.specs.Adds.{verdict, is_declared};
ghost use Rattle.sm_archive.specs.Index.{HasSpace, Reserved, Added};

use crate::check::check_of;
use sm_catalog::{Catalog, Judged};
use sm_model::{Address, Channel, NoMemory};
use sm_record::Meta;
use std::alloc::Global;

// The catalog, and of each fragment in order of place, the first one's place being 1, its track and span and the check of its body.
#[derive(Debug, Drop)]
pub(crate) struct Index {
    pub(crate) catalog: Catalog,
    pub(crate) metas: Vec<Meta>,
    // No clause speaks of them: a body whose check is another one is read by its digest.
    pub(crate) checks: Vec<u64>,
}

impl Index {
    // The index of a log that has a header alone.
    pub(crate) fn of_header(alloc: Global, channel: &Channel) -> Result<Index, NoMemory>
        requires { IsChannel channel.now }
        ensures { IfOk result (λ index. (index.catalog.channel ≡ channel.now) × (index.catalog.adds ≡ []) × (index.metas.items ≡ [])) }
    {
        let catalog = Catalog::new(alloc, channel.copy(alloc)?)?;
        Ok(Index {
            catalog,
            metas: Vec::new(alloc),
            checks: Vec::new(alloc),
        })
    }

    // Whether the channel has the address's track.
    pub(crate) fn has_track(&self, address: &Address) -> bool
        ensures { result ≡ is_declared self.now.catalog.channel address.now }
    {
        match self.catalog.judge(address, 1) {
            Judged::NotDeclared => false,
            Judged::New => true,
            Judged::Known { place: _ } => true,
            Judged::Clash { kept: _ } => true,
            Judged::Overlap { end: _ } => true,
        }
    }

    // Makes space for two entries of the address's stream, where the channel has its track.
    pub(crate) fn reserve(&mut self, address: &Address) -> Result<(), NoMemory>
        ensures reserved { Reserved self.old self.new }
        ensures space { OnOk result (IsTrue (is_declared self.old.catalog.channel address.now) → HasSpace self.new 2 address.now.stream) }
    {
        self.catalog.reserve(address)?;
        self.metas.reserve(2)?;
        self.checks.reserve(2)?;
        Ok(())
    }

    // Adds a fragment that is new, without memory.
    pub(crate) fn add(&mut self, address: &Address, meta: Meta, check: u64, place: u64)
        requires space { HasSpace self.old 1 address.now.stream }
        requires verdict { verdict self.old.catalog.channel self.old.catalog.adds address.now meta.duration ≡ New }
        requires lasts { 1 ≤ meta.duration }
        requires ends { address.now.time + meta.duration < 2 ^ 63 }
        ensures { Added self.old self.new address.now meta place }
    {
        self.catalog.add(address, meta.duration, place);
        let _ = self.metas.push(meta);
        let _ = self.checks.push(check);
    }

    // Whether a body has the check of the one that was taken in for this place.
    pub(crate) fn is_known(&self, place: u64, body: &[u8]) -> bool {
        match self.checks.get((place as usize).saturating_sub(1)) {
            Some(check) => *check == check_of(body),
            None => false,
        }
    }
}
