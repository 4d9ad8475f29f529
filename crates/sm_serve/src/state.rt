//! What the loop keeps.
ghost use Rattle.std.specs.Prelude.{◌≡◌, ◌↔◌, ◌<◌, ◌≤◌, ◌^◌, ℕ, None, IfOk, IsSome, is_some};
ghost use Rattle.sm_model.specs.Channels.{IsChannel};
ghost use Rattle.sm_model.specs.declared.fragment.Fragment.{Fragment};
ghost use Rattle.sm_model.specs.Entries.{address_of};
ghost use Rattle.sm_model.specs.Fragments.{IsValid};
ghost use Rattle.sm_log.specs.Adds.{place_of};
ghost use Rattle.sm_log.specs.Logs.{adds_of};
ghost use Rattle.sm_site.specs.Clauses.{Rose};
ghost use Rattle.sm_site.specs.Meanings.{DiskAlone};
ghost use Rattle.sm_archive.specs.declared.answers.Declared.TheVariants as answer;
ghost use Rattle.sm_archive.specs.declared.fetch.Fetched.TheVariants.{Found, Absent, DiskFault, Damaged};
ghost use Rattle.sm_origin.specs.Machine.{Machine};
ghost use Rattle.sm_origin.specs.Acting.{IsHeld};
ghost use Rattle.sm_origin.specs.Opening.{Opens};
ghost use Rattle.sm_serve.specs.declared.state.State.{State};
ghost use Rattle.sm_serve.specs.Standing.{History, StandsOn, StandsForSome};
ghost use Rattle.sm_origin.specs.Seen.{archive_of};

use crate::Live;
use sm_archive::{Archive, Declared, Fetched, Limits, OpenFault};
use sm_model::{Address, Channel};
use sm_origin::Origin;
use sm_origin::law::an_image_fits;
use sm_site::Site;
use std::alloc::Global;

/// What the loop keeps: the origin, and the live connections in the order in which they were opened.
#[derive(Drop)]
pub struct State {
    pub alloc: Global,
    pub origin: Origin,
    pub lives: Vec<Live>,
}

impl State {
    ghost use Rattle.sm_serve.specs.Serving.{Begins, Serves, DeclaresIn, RecallsIn};

    /// Opens the store of a site under these limits, with no connection. A file that is fresh is made; nothing else is written.
    pub fn start<S: Site>(alloc: Global, site: &mut S, limits: Limits) -> Result<State, OpenFault>
        requires bytes { limits.store_bytes ≤ 2 ^ 62 }
        requires entries { limits.entries < 2 ^ 32 }
        ensures opens { Opens S.Disk.seen (λ (state : State). state.origin) site.old site.new limits result }
        // A run begins here.
        ensures begins { IfOk result (λ state. Begins S.Disk.seen state site.new) }
    {
        an_image_fits::<S>();
        let origin = Origin::open_origin(alloc, site, limits)?;
        Ok(State {
            alloc,
            origin,
            lives: Vec::new(alloc),
        })
    }

    /// Declares the channel of a ladder, or compares it with the one that stands.
    pub fn declare<S: Site>(&mut self, site: &mut S, channel: &Channel) -> Declared
        requires valid { IsChannel channel.now }
        requires stands { StandsForSome S.Disk.seen self.old.origin site.old }
        // Wherever a run had come, it goes on by one step, whose reply is the answer's.
        ensures runs { (h : History) → Serves S.Disk.seen h self.old site.old
            → DeclaresIn S.Disk.seen h channel.now result self.new site.new }
        ensures stands { StandsForSome S.Disk.seen self.new.origin site.new }
        ensures lives { self.new.lives ≡ self.old.lives }
        ensures fault { result ≡ answer.DiskFault → Rose (S.Disk.seen.view site.old).disk_faults (S.Disk.seen.view site.new).disk_faults }
        ensures disk_alone { DiskAlone (S.Disk.seen.view site.old) (S.Disk.seen.view site.new) }
    {
        an_image_fits::<S>();
        self.origin.declare(self.alloc, site, channel)
    }

    /// Reads back the fragment of an address, from what was used last or from the disk, for one who is no connection.
    pub fn recall<S: Site>(&self, site: &mut S, address: &Address) -> Fetched
        requires stands { StandsForSome S.Disk.seen self.now.origin site.old }
        // Wherever a run had come, it goes on by one step, whose reply is what a connection would be told.
        ensures runs { (h : History) → Serves S.Disk.seen h self.now site.old
            → RecallsIn S.Disk.seen h address.now result self.now site.new }
        ensures stands { StandsForSome S.Disk.seen self.now.origin site.new }
        // What is found is what the log has at its place; where the disk tells its contents it is the log's own.
        ensures found { (place : ℕ) (f : Fragment) → result ≡ Found place f → (m : Machine)
            → StandsOn S.Disk.seen m self.now.origin site.old
            → IsHeld (IsSome (S.Disk.seen.view site.old).contents) m.log (address.now, record { place = place; fragment = f }) }
        ensures valid { (place : ℕ) (f : Fragment) → result ≡ Found place f → IsValid f × (address_of f ≡ address.now) }
        ensures absent { (m : Machine) → StandsOn S.Disk.seen m self.now.origin site.old
            → (result ≡ Absent) ↔ (place_of address.now (adds_of m.log) ≡ None) }
        ensures damaged { result ≡ Damaged → IsSome (S.Disk.seen.view site.old).contents → ⊥ }
        ensures fault { result ≡ DiskFault → Rose (S.Disk.seen.view site.old).disk_faults (S.Disk.seen.view site.new).disk_faults }
        ensures told { is_some (S.Disk.seen.view site.new).contents ≡ is_some (S.Disk.seen.view site.old).contents }
        ensures disk_alone { DiskAlone (S.Disk.seen.view site.old) (S.Disk.seen.view site.new) }
    {
        an_image_fits::<S>();
        self.origin.recall(self.alloc, site, address)
    }

    /// The archive of the store.
    pub fn archive(&self) -> &Archive
        ensures { result.now ≡ archive_of self.now.origin }
    {
        self.origin.archive()
    }
}
