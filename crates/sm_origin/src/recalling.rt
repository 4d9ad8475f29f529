//! A fragment that is read back, without a reply.
ghost use Rattle.std.specs.Prelude.{◌≡◌, ◌⊎◌, ◌↔◌, ℕ, None, IsSome};
ghost use Rattle.sm_model.specs.declared.act.Act.TheVariants.{Fragment as Ask};
ghost use Rattle.sm_model.specs.declared.fragment.Fragment.{Fragment};
ghost use Rattle.sm_model.specs.Entries.{address_of};
ghost use Rattle.sm_model.specs.Fragments.{IsValid};
ghost use Rattle.sm_log.specs.Adds.{place_of};
ghost use Rattle.sm_log.specs.Logs.{adds_of};
ghost use Rattle.sm_site.specs.Clauses.{Rose};
ghost use Rattle.sm_archive.specs.declared.fetch.Fetched.TheVariants.{Found, Absent, DiskFault, Damaged, NoMemory};
ghost use Rattle.sm_origin.specs.Answers.{reply_to_fetched};
ghost use Rattle.sm_origin.specs.Machine.{Machine};
ghost use Rattle.sm_origin.specs.Acting.{IsHeld, StandsOn, StandsForSome};
ghost use Rattle.sm_origin.specs.Acts.{IsOneStep};

use crate::origin::Origin;
use sm_archive::{Fetched, an_image_fits};
use sm_cache::Kept;
use sm_log::law::kept_is_added;
use sm_model::Address;
use sm_site::Disk;
use std::alloc::Global;

// What the cache holds, once more.
fn again(alloc: Global, kept: &Kept) -> Fetched
    ensures { (result ≡ Found kept.now.place kept.now.fragment) ⊎ (result ≡ NoMemory) }
{
    match kept.fragment.copy(alloc) {
        Ok(fragment) => Fetched::Found {
            place: kept.place,
            fragment,
        },
        Err(_) => Fetched::NoMemory,
    }
}

impl Origin {
    /// Reads back the fragment of an address for one who is no connection: what asks for it, without a reply. It comes from the cache, whose order
    /// stays, or else from the disk, and isn't put into the cache.
    pub fn recall<D: Disk>(&self, alloc: Global, disk: &mut D, address: &Address) -> Fetched
        requires stands { StandsForSome D.seen self.now disk.old }
        // It is one step, whose reply is what a connection would be told.
        ensures one { IsOneStep D.seen disk.old disk.new self.now self.now (Ask address.now) (λ log. reply_to_fetched log address.now result) }
        // What is found is what the log has at its place; where the disk tells its contents it is the log's own.
        ensures found { (place : ℕ) (f : Fragment) → result ≡ Found place f → (m : Machine) → StandsOn D.seen m self.now disk.old
            → IsHeld (IsSome (D.seen.view disk.old).contents) m.log (address.now, record { place = place; fragment = f }) }
        ensures valid { (place : ℕ) (f : Fragment) → result ≡ Found place f → IsValid f × (address_of f ≡ address.now) }
        ensures absent { (m : Machine) → StandsOn D.seen m self.now disk.old → (result ≡ Absent) ↔ (place_of address.now (adds_of m.log) ≡ None) }
        ensures damaged { result ≡ Damaged → IsSome (D.seen.view disk.old).contents → ⊥ }
        ensures fault { result ≡ DiskFault → Rose (D.seen.view disk.old).disk_faults (D.seen.view disk.new).disk_faults }
    {
        an_image_fits::<D>();
        kept_is_added();
        match self.cache.peek(address) {
            Some(kept) => again(alloc, kept),
            None => self.archive.fetch(alloc, disk, address),
        }
    }
}
