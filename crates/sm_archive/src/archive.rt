//! The archive, and what it does with a doubt.
ghost use Rattle.std.specs.Prelude.{◌≡◌, ◌⊎◌, ℕ, ◌+◌, List, [], ◌∷◌, ◌++◌, length, Option, None, Some, OnOk, OnErr, IsErr, IsSome};
ghost use Rattle.sm_model.specs.declared.track.Track.{Track};
ghost use Rattle.sm_model.specs.declared.entry.Entry.{Entry};
ghost use Rattle.sm_archive.specs.Steps.{Clears, Settles};
ghost use Rattle.sm_site.specs.Meanings.{DiskAlone};
ghost use Rattle.sm_site.specs.Clauses.{Acted, Recorded, Rose, Throughout};
ghost use Rattle.sm_archive.specs.Seen.{limits_of};
ghost use Rattle.sm_archive.specs.Store.{IsStore};
ghost use Rattle.sm_archive.specs.Stands.{Stands};
ghost use Rattle.sm_archive.specs.Keeping.{HasChannel, SpaceIn};
ghost use Rattle.sm_archive.specs.Taking.{CanTake, Taken};
ghost use Rattle.sm_archive.specs.Appending.{CanAppend, IsUnused};
ghost use Rattle.sm_seglog.specs.Standing.{EndsWithin};
ghost use Rattle.sm_archive.specs.Reserving.{StaysReserved};

use crate::answers::DiskFault;
use crate::index::Index;
use crate::limits::Limits;
use sm_gatelog::{Appended, Settled};
use sm_model::{Address, Bytes};
use sm_record::Meta;
use sm_seglog::SegLog;
use sm_site::Disk;

// What is kept of an entry in doubt, so that it can be taken in without memory.
#[derive(Debug, Drop)]
pub(crate) enum Pending {
    Declare(Index),
    // The fragment's address, track and span, and the check of its body.
    Keep(Address, Meta, u64),
}

// An entry that a crash may leave or not.
#[derive(Debug, Drop)]
pub(crate) struct Doubt {
    pub(crate) entry: Pending,
    // What its record uses.
    pub(crate) bytes: u64,
}

/// A log of entries on a disk.
#[derive(Drop)]
pub struct Archive {
    pub(crate) log: SegLog,
    pub(crate) limits: Limits,
    // In bytes of records; it stands still at its type's end.
    pub(crate) used: u64,
    pub(crate) index: Option<Index>,
    pub(crate) doubt: Option<Doubt>,
}

// Takes in what was in doubt, without memory.
pub(crate) fn take_in(index: &mut Option<Index>, entry: Pending, place: u64)
    requires { CanTake index.old entry }
    ensures { Taken index.old entry place index.new }
{
    match entry {
        Pending::Declare(own) => *index = Some(own),
        Pending::Keep(address, meta, check) => match index {
            Some(index) => index.add(&address, meta, check, place),
            None => unreachable!(),
        },
    }
}

impl Archive {
    /// Finds out whether the entry in doubt is in the log. Without a doubt it makes no disk call.
    pub fn settle<D: Disk>(&mut self, disk: &mut D) -> Result<(), DiskFault>
        requires stands { (log : List Entry) × (doubt : Option Entry) × Stands self.old log doubt (D.seen.may_leave disk.old) }
        // It stands for some log again, whichever it stood for.
        ensures stands { (log : List Entry) × (doubt : Option Entry) × Stands self.new log doubt (D.seen.may_leave disk.new) }
        ensures settled { OnOk result ((log : List Entry) (doubt : Option Entry) → Stands self.old log doubt (D.seen.may_leave disk.old) → (after : List Entry)
            × Clears (Acted (D.seen.view disk.old) (D.seen.view disk.new)) log doubt after × Stands self.new after None (D.seen.may_leave disk.new)) }
        ensures failed { OnErr result ((log : List Entry) (doubt : Option Entry) → Stands self.old log doubt (D.seen.may_leave disk.old) → (IsSome doubt)
            × Stands self.new log doubt (D.seen.may_leave disk.new)) }
        ensures any_moment { (log : List Entry) (doubt : Option Entry) → Stands self.old log doubt (D.seen.may_leave disk.old)
            → Throughout D.seen disk.old disk.new (λ t c. (after : List Entry) × IsStore after c × Settles log doubt after) }
        ensures contents { (D.seen.view disk.new).contents ≡ (D.seen.view disk.old).contents }
        ensures fault { IsErr result → Rose (D.seen.view disk.old).disk_faults (D.seen.view disk.new).disk_faults }
        ensures channel { (channel : List Track) → HasChannel self.new channel → HasChannel self.old channel }
        ensures space { (n : ℕ) (stream : List ℕ) → SpaceIn self.old (n + 1) stream → SpaceIn self.new n stream }
        ensures reserved { StaysReserved self.old self.new }
        ensures recorded { Recorded (D.seen.view disk.old) (D.seen.view disk.new) }
        ensures limits { limits_of self.new ≡ limits_of self.old }
        ensures disk_alone { DiskAlone (D.seen.view disk.old) (D.seen.view disk.new) }
    {
        match self.doubt.take() {
            None => Ok(()),
            Some(doubt) => match self.log.settle(disk) {
                Settled::Stored { place } => {
                    self.used = self.used.saturating_add(doubt.bytes);
                    take_in(&mut self.index, doubt.entry, place);
                    Ok(())
                }
                Settled::Gone => Ok(()),
                Settled::DiskFault => {
                    self.doubt = Some(doubt);
                    Err(DiskFault)
                }
            },
        }
    }

    // Appends an entry that may stand behind the log and meets no limit, without memory. Where the disk fails there is no
    // place, and the entry may be in doubt.
    pub(crate) fn append<D: Disk>(
        &mut self,
        disk: &mut D,
        entry: Pending,
        body: Bytes,
    ) -> Option<u64>
        requires can { (log : List Entry) × (e : Entry) × Stands self.old log None (D.seen.may_leave disk.old) × CanAppend self.old entry body log e }
        ensures stored { (place : ℕ) → result ≡ Some place → (log : List Entry) (e : Entry) → Stands self.old log None (D.seen.may_leave disk.old)
            → CanAppend self.old entry body log e → (place ≡ length log) × Stands self.new (log ++ e ∷ []) None (D.seen.may_leave disk.new) }
        ensures used { (place : ℕ) → result ≡ Some place → self.new.used ≡ self.old.used + (5 + length body) }
        ensures ends { (place : ℕ) → result ≡ Some place → EndsWithin self.new.log }
        ensures acts { (place : ℕ) → result ≡ Some place → Acted (D.seen.view disk.old) (D.seen.view disk.new) }
        ensures failed { result ≡ None → (log : List Entry) (e : Entry) → Stands self.old log None (D.seen.may_leave disk.old)
            → CanAppend self.old entry body log e
            → IsUnused self.old self.new × (Stands self.new log None (D.seen.may_leave disk.new)
            ⊎ (Acted (D.seen.view disk.old) (D.seen.view disk.new) × Stands self.new log (Some e) (D.seen.may_leave disk.new))) }
        ensures any_moment { (log : List Entry) (e : Entry) → Stands self.old log None (D.seen.may_leave disk.old) → CanAppend self.old entry body log e
            → IsSome (D.seen.view disk.old).contents → Throughout D.seen disk.old disk.new (λ t c. (after : List Entry) × IsStore after c × ((after ≡ log)
            ⊎ (after ≡ log ++ e ∷ []))) }
        ensures fault { result ≡ None → Rose (D.seen.view disk.old).disk_faults (D.seen.view disk.new).disk_faults }
        ensures recorded { Recorded (D.seen.view disk.old) (D.seen.view disk.new) }
        ensures limits { limits_of self.new ≡ limits_of self.old }
        ensures disk_alone { DiskAlone (D.seen.view disk.old) (D.seen.view disk.new) }
    {
        let bytes = 5 + body.len();
        match self.log.append(disk, body.as_slice()) {
            Appended::Stored { place } => {
                self.used += bytes;
                take_in(&mut self.index, entry, place);
                Some(place)
            }
            Appended::Clean => None,
            Appended::Doubt => {
                self.doubt = Some(Doubt { entry, bytes });
                None
            }
        }
    }
}
