//! Reading a fragment back.
ghost use Rattle.std.specs.Prelude.{◌≡◌, ℕ, ◌<◌, ◌↔◌, List, Option, None, Some, Err, IfOk, OnErr, IsSome, slice_get};
ghost use Rattle.sm_model.specs.declared.fragment.Fragment.{Fragment};
ghost use Rattle.sm_model.specs.declared.entry.Entry.{Entry};
ghost use Rattle.sm_model.specs.declared.entry.Entry.TheVariants.{Keep};
ghost use Rattle.sm_model.specs.Entries.{address_of};
ghost use Rattle.sm_model.specs.Fragments.{IsValid};
ghost use Rattle.sm_log.specs.Adds.{place_of};
ghost use Rattle.sm_log.specs.Logs.{adds_of};
ghost use Rattle.sm_site.specs.Image.{Image};
ghost use Rattle.sm_site.specs.Meanings.{DiskAlone};
ghost use Rattle.sm_site.specs.Clauses.{Recorded, Rose, Throughout};
ghost use Rattle.sm_archive.specs.declared.fetch.Fetched.TheVariants.{Found, Absent, DiskFault, Damaged};
ghost use Rattle.sm_record.specs.Bodies.{IsBody};
ghost use Rattle.sm_record.specs.Reads.{Knows};
ghost use Rattle.sm_record.specs.declared.fault.RecordFault.TheVariants as record_fault;
ghost use Rattle.sm_archive.specs.Stands.{Stands};

use crate::archive::Archive;
use crate::index::Index;
use sm_gatelog::ReadFault;
use sm_model::{Address, Bytes, Entry, Fragment, Part};
use sm_record::{RecordFault, a_body_has_one_entry, read_known, read_part};
use sm_site::Disk;
use std::alloc::Global;

/// What came of asking for a fragment.
#[derive(Debug, Drop)]
pub enum Fetched {
    /// It is kept as the entry at this place of the log, from 0.
    Found { place: u64, fragment: Fragment },
    /// Nothing is kept at that address.
    Absent,
    /// The disk failed.
    DiskFault,
    /// What was read is no valid fragment of that address, which never is so on a disk that tells its contents.
    Damaged,
    NoMemory,
}

// The valid fragment of this address that an entry is.
fn fragment_of(entry: Entry, address: &Address) -> Result<Fragment, RecordFault>
    ensures kept { IfOk result (λ f. (entry ≡ Keep f) × (address_of f ≡ address.now) × IsValid f) }
    ensures other { OnErr result ((f : Fragment) → entry ≡ Keep f → address_of f ≡ address.now → IsValid f → ⊥) }
{
    match entry {
        Entry::Declare(_) => Err(RecordFault::Damaged),
        Entry::Keep(fragment) => {
            if fragment.is_at(address) && fragment.is_valid() {
                Ok(fragment)
            } else {
                Err(RecordFault::Damaged)
            }
        }
    }
}

// The entry of a body that was read for a place. What has the check of the body that was taken in there isn't hashed with its digest again.
fn entry_of(alloc: Global, index: &Index, place: u64, body: &Part) -> Result<Entry, RecordFault>
    ensures { (entry : Entry) → IsBody (Some index.now.catalog.channel) entry body.now → Knows entry result }
{
    a_body_has_one_entry();
    let channel = Some(index.catalog.channel());
    if index.is_known(place, body.as_slice()) {
        read_known(alloc, body, channel)
    } else {
        read_part(alloc, body, channel)
    }
}

// The valid fragment of this address that a body is which was read for a place: the one whose body it is, if it is one.
fn kept_at(
    alloc: Global,
    index: &Index,
    place: u64,
    body: Bytes,
    address: &Address,
) -> Result<Fragment, RecordFault>
    ensures kept { IfOk result (λ f. (address_of f ≡ address.now) × IsValid f
        × ((g : Fragment) → IsBody (Some index.now.catalog.channel) (Keep g) body → g ≡ f)) }
    ensures damaged { result ≡ Err record_fault.Damaged → (f : Fragment) → IsBody (Some index.now.catalog.channel) (Keep f) body
        → address_of f ≡ address.now → IsValid f → ⊥ }
{
    let body = body.into_part(alloc)?;
    match entry_of(alloc, index, place, &body) {
        Ok(entry) => fragment_of(entry, address),
        Err(fault) => Err(fault),
    }
}

impl Archive {
    // Reads the entry of a place, which is that of an address.
    fn fetch_at<D: Disk>(
        &self,
        alloc: Global,
        disk: &mut D,
        index: &Index,
        address: &Address,
        place: u64,
    ) -> Fetched
        requires stands { (log : List Entry) × (doubt : Option Entry) × Stands self.now log doubt (D.seen.may_leave disk.old) }
        requires index { self.now.index ≡ Some index.now }
        requires place { place_of address.now index.now.catalog.adds ≡ Some place }
        ensures found { (at : ℕ) (f : Fragment) → result ≡ Found at f → (at ≡ place) × (address_of f ≡ address.now)
            × ((log : List Entry) (doubt : Option Entry)
            → Stands self.now log doubt (D.seen.may_leave disk.old) → IsSome (D.seen.view disk.old).contents → slice_get log place ≡ Some (Keep f)) }
        ensures valid { (at : ℕ) (f : Fragment) → result ≡ Found at f → IsValid f }
        ensures present { result ≡ Absent → ⊥ }
        ensures damaged { result ≡ Damaged → (log : List Entry) (doubt : Option Entry) → Stands self.now log doubt (D.seen.may_leave disk.old)
            → IsSome (D.seen.view disk.old).contents → ⊥ }
        ensures fault { result ≡ DiskFault → Rose (D.seen.view disk.old).disk_faults (D.seen.view disk.new).disk_faults }
        ensures no_more { (c : Image) → D.seen.may_leave disk.new c → D.seen.may_leave disk.old c }
        ensures any_moment { Throughout D.seen disk.old disk.new (λ t c. D.seen.may_leave disk.old c) }
        ensures contents { (D.seen.view disk.new).contents ≡ (D.seen.view disk.old).contents }
        ensures recorded { Recorded (D.seen.view disk.old) (D.seen.view disk.new) }
        ensures disk_alone { DiskAlone (D.seen.view disk.old) (D.seen.view disk.new) }
    {
        match self.log.read(alloc, disk, place) {
            Err(ReadFault::DiskFault) => Fetched::DiskFault,
            Err(ReadFault::NoMemory) => Fetched::NoMemory,
            Ok(body) => match kept_at(alloc, index, place, body, address) {
                Ok(fragment) => Fetched::Found { place, fragment },
                Err(fault) => match fault {
                    RecordFault::NoMemory => Fetched::NoMemory,
                    RecordFault::Damaged => Fetched::Damaged,
                },
            },
        }
    }

    /// The fragment that is kept at an address, with its place. On a disk that tells its contents it is the log's, and
    /// nothing is ever damaged.
    pub fn fetch<D: Disk>(&self, alloc: Global, disk: &mut D, address: &Address) -> Fetched
        requires stands { (log : List Entry) × (doubt : Option Entry) × Stands self.now log doubt (D.seen.may_leave disk.old) }
        ensures found { (place : ℕ) (f : Fragment) → result ≡ Found place f → (address_of f ≡ address.now) × ((log : List Entry) (doubt : Option Entry)
            → Stands self.now log doubt (D.seen.may_leave disk.old)
            → (place_of address.now (adds_of log) ≡ Some place) × (IsSome (D.seen.view disk.old).contents → slice_get log place ≡ Some (Keep f))) }
        ensures valid { (place : ℕ) (f : Fragment) → result ≡ Found place f → IsValid f }
        ensures absent { (log : List Entry) (doubt : Option Entry) → Stands self.now log doubt (D.seen.may_leave disk.old)
            → (result ≡ Absent) ↔ (place_of address.now (adds_of log) ≡ None) }
        ensures damaged { result ≡ Damaged → (log : List Entry) (doubt : Option Entry) → Stands self.now log doubt (D.seen.may_leave disk.old)
            → IsSome (D.seen.view disk.old).contents → ⊥ }
        ensures fault { result ≡ DiskFault → Rose (D.seen.view disk.old).disk_faults (D.seen.view disk.new).disk_faults }
        ensures stands { (log : List Entry) (doubt : Option Entry) → Stands self.now log doubt (D.seen.may_leave disk.old)
            → Stands self.now log doubt (D.seen.may_leave disk.new) }
        ensures any_moment { Throughout D.seen disk.old disk.new (λ t c. D.seen.may_leave disk.old c) }
        ensures contents { (D.seen.view disk.new).contents ≡ (D.seen.view disk.old).contents }
        ensures recorded { Recorded (D.seen.view disk.old) (D.seen.view disk.new) }
        ensures disk_alone { DiskAlone (D.seen.view disk.old) (D.seen.view disk.new) }
    {
        match &self.index {
            None => Fetched::Absent,
            Some(index) => match index.catalog.place(address) {
                None => Fetched::Absent,
                Some(place) => self.fetch_at(alloc, disk, index, address, place),
            },
        }
    }
}
