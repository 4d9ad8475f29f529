//! A fragment that is asked for.
ghost use Rattle.std.specs.Prelude.{◌≡◌, ◌<◌, ◌^◌, Some, None, IfOk, OnOk, OnErr};
ghost use Rattle.sm_model.specs.Fragments.{IsValid};
ghost use Rattle.sm_log.specs.Logs.{channel_of};
ghost use Rattle.sm_model.specs.declared.act.Act.TheVariants.{Fragment as Ask};
ghost use Rattle.sm_cache.specs.declared.cache.Kept.{Kept};
ghost use Rattle.sm_origin.specs.Acting.{StandsForSome};
ghost use Rattle.sm_origin.specs.Acts.{Acts};
ghost use Rattle.sm_origin.specs.Caching.{held_at, with_kept};
ghost use Rattle.sm_origin.specs.Giving.{OfLog, Gives, missing};

use crate::kept::give;
use crate::origin::Origin;
use crate::told::{or_starved, refuse};
use sm_archive::{Archive, Fetched, an_image_fits};
use sm_log::law::kept_is_added;
use sm_model::{Address, Cause, Fragment, NoMemory};
use sm_reply::{Reply, starved, tell};
use sm_site::Disk;
use std::alloc::Global;

// Why nothing is at an address.
fn tell_missing(alloc: Global, archive: &Archive) -> Result<Reply, NoMemory>
    ensures { OfLog archive.now (λ log. IfOk result (λ reply. reply ≡ missing (channel_of log))) }
{
    match archive.catalog() {
        None => tell(alloc, Cause::NoChannel),
        Some(_) => tell(alloc, Cause::NotKept),
    }
}

// The reply that gives a fragment which the archive has at that address and place.
fn give_kept(
    alloc: Global,
    archive: &Archive,
    address: &Address,
    place: u64,
    fragment: &Fragment,
) -> Result<Reply, NoMemory>
    requires valid { IsValid fragment.now }
    requires place { place < 2 ^ 32 }
    ensures { Gives archive.now address.now place fragment.now result }
{
    match archive.catalog() {
        None => tell(alloc, Cause::NoChannel),
        Some(catalog) => give(alloc, catalog, address, place, fragment),
    }
}

impl Origin {
    // Gives a fragment that was read back, and puts it into the cache.
    fn give_read(
        &mut self,
        alloc: Global,
        address: &Address,
        place: u64,
        fragment: Fragment,
    ) -> Result<Reply, NoMemory>
        requires valid { IsValid fragment }
        requires place { place < 2 ^ 32 }
        ensures archive { self.new.archive ≡ self.old.archive }
        ensures gives { Gives self.old.archive address.now place fragment result }
        ensures put { OnOk result (self.new.cache ≡ with_kept self.old.cache place fragment) }
        ensures none { OnErr result (self.new.cache ≡ self.old.cache) }
    {
        let reply = give_kept(alloc, &self.archive, address, place, &fragment)?;
        self.cache.put(alloc, place, fragment)?;
        Ok(reply)
    }

    // Asks the archive for a fragment that the cache lacks.
    fn fetch<D: Disk>(&mut self, alloc: Global, disk: &mut D, address: &Address) -> Reply
        requires absent { held_at address.now self.old.cache ≡ None }
        requires stands { StandsForSome D.seen self.old disk.old }
        ensures { Acts D.seen disk.old disk.new self.old self.new (Ask address.now) result }
    {
        an_image_fits::<D>();
        kept_is_added();
        match self.archive.fetch(alloc, disk, address) {
            Fetched::Found { place, fragment } => {
                or_starved(alloc, self.give_read(alloc, address, place, fragment))
            }
            Fetched::Absent => or_starved(alloc, tell_missing(alloc, &self.archive)),
            Fetched::DiskFault => refuse(alloc, Cause::DiskFault),
            Fetched::Damaged => refuse(alloc, Cause::Damaged),
            Fetched::NoMemory => starved(alloc),
        }
    }

    // Gives the fragment of an address, from the cache or from the disk.
    pub(crate) fn fragment<D: Disk>(
        &mut self,
        alloc: Global,
        disk: &mut D,
        address: &Address,
    ) -> Reply
        requires stands { StandsForSome D.seen self.old disk.old }
        ensures acts { Acts D.seen disk.old disk.new self.old self.new (Ask address.now) result }
        ensures unread { (kept : Kept) → held_at address.now self.old.cache ≡ Some kept → (D.seen.view disk.new).reads ≡ (D.seen.view disk.old).reads }
    {
        an_image_fits::<D>();
        kept_is_added();
        match self.cache.get(address) {
            Some(kept) => or_starved(
                alloc,
                give_kept(alloc, &self.archive, address, kept.place, &kept.fragment),
            ),
            None => self.fetch(alloc, disk, address),
        }
    }
}
