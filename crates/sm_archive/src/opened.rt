//! Opening a store.
ghost use Rattle.std.specs.Prelude.{◌≡◌, ◌++◌, ℕ, ◌≤◌, ◌<◌, ◌^◌, List, [], None, Some, IfOk, IfSome, IsSome, IsErrOf, slice_get};
ghost use Rattle.sm_model.specs.declared.entry.Entry.{Entry};
ghost use Rattle.sm_site.specs.Image.{Image};
ghost use Rattle.sm_site.specs.Meanings.{DiskAlone};
ghost use Rattle.sm_site.specs.Clauses.{NoMore, Recorded, Rose, Throughout};
ghost use Rattle.sm_seglog.specs.Standing as seg;
ghost use Rattle.sm_seglog.specs.Stores.{HasStore};
ghost use Rattle.sm_archive.specs.declared.opened.OpenFault.TheVariants as open_fault;
ghost use Rattle.sm_archive.specs.Seen.{limits_of};
ghost use Rattle.sm_archive.specs.Store.{Spell, IsStore};
ghost use Rattle.sm_archive.specs.Stands.{Stands};
ghost use Rattle.sm_archive.specs.Opening.{FailsAt, IsRead, NotAStore};
ghost use Rattle.sm_seglog.specs.Segments.{slots_of};
ghost use Rattle.sm_gatelog.specs.declared.slot.Slot.{Slot};
ghost use Rattle.sm_seglog.specs.Segments.{count_of};

use crate::admit::admit;
use crate::archive::Archive;
use crate::index::Index;
use crate::law::bodies_have_one_log;
use crate::limits::Limits;
use sm_gatelog::{LogFault, ReadFault};
use sm_record::RecordFault;
use sm_seglog::SegLog;
use sm_seglog::law::stores_have_one_reading;
use sm_site::Disk;
use std::alloc::Global;
use thiserror::Error;

/// Why a store is not opened.
#[derive(Clone, Copy, Debug, PartialEq, Eq, Error)]
pub enum OpenFault {
    #[error("the disk failed")]
    DiskFault,
    #[error("not a store at {at}")]
    NotAStore { at: u64 },
    #[error("out of memory")]
    NoMemory,
}

// Reads all bodies, each once, and takes in their entries: the index of them, and the bytes that they use.
fn walk<D: Disk>(
    alloc: Global,
    disk: &mut D,
    log: &SegLog,
) -> Result<(Option<Index>, u64), OpenFault>
    ensures read { IfOk result (λ r. IsRead (IsSome (D.seen.view disk.old).contents) log.now (D.seen.may_leave disk.old) r.0 r.1 (count_of log.now)) }
    ensures refused { (at : ℕ) → IsErrOf result (open_fault.NotAStore at) → (bodies : List (List ℕ))
        → seg.Stands log.now bodies None (D.seen.may_leave disk.old)
        → IsSome (D.seen.view disk.old).contents
        → (place : ℕ) × (slot : Slot) × (slice_get (slots_of log.now.full ++ log.now.last.slots) place ≡ Some slot) × (at ≡ slot.gate)
        × FailsAt bodies place }
    ensures some { (at : ℕ) → IsErrOf result (open_fault.NotAStore at) → 1 ≤ count_of log.now }
    ensures contents { (D.seen.view disk.new).contents ≡ (D.seen.view disk.old).contents }
    ensures no_more { (c : Image) → D.seen.may_leave disk.new c → D.seen.may_leave disk.old c }
    ensures any_moment { Throughout D.seen disk.old disk.new (λ t c. D.seen.may_leave disk.old c) }
    ensures fault { IsErrOf result open_fault.DiskFault → Rose (D.seen.view disk.old).disk_faults (D.seen.view disk.new).disk_faults }
    ensures disk_alone { DiskAlone (D.seen.view disk.old) (D.seen.view disk.new) }
{
    let mut index = None;
    let mut used = 0;
    for place in 0..log.len() {
        match log.read(alloc, disk, place) {
            Err(ReadFault::DiskFault) => return Err(OpenFault::DiskFault),
            Err(ReadFault::NoMemory) => return Err(OpenFault::NoMemory),
            Ok(body) => match admit(alloc, &mut index, &mut used, body.as_slice(), place) {
                Err(RecordFault::Damaged) => {
                    return Err(OpenFault::NotAStore {
                        at: log.gate(place),
                    });
                }
                Err(RecordFault::NoMemory) => return Err(OpenFault::NoMemory),
                Ok(()) => {}
            },
        }
    }
    Ok((index, used))
}

/// The archive of a disk. A file that is fresh is made; nothing else is written, and a store that is refused isn't touched.
pub fn open_store<D: Disk>(
    alloc: Global,
    disk: &mut D,
    limits: Limits,
) -> Result<Archive, OpenFault>
    requires bytes { limits.store_bytes ≤ 2 ^ 62 }
    requires entries { limits.entries < 2 ^ 32 }
    // It stands for some log, which is the one that was read on a disk that tells nothing.
    ensures opened { IfOk result (λ a. (log : List Entry) × Stands a log None (D.seen.may_leave disk.new)) }
    // At Ok the contents are a store, and the archive stands for its log.
    ensures has { IfOk result (λ a. IfSome (D.seen.view disk.old).contents (λ c. (log : List Entry) × IsStore log c)) }
    ensures store { IfOk result (λ a. IfSome (D.seen.view disk.old).contents
        (λ c. (log : List Entry) → IsStore log c → Stands a log None (D.seen.may_leave disk.new))) }
    ensures refused { (at : ℕ) → IsErrOf result (open_fault.NotAStore at) → IfSome (D.seen.view disk.old).contents (NotAStore at) }
    // A store that is refused isn't written: the contents stay, and at no moment a crash leaves what it couldn't leave before.
    ensures untouched { (at : ℕ) → IsErrOf result (open_fault.NotAStore at) → ((D.seen.view disk.new).contents ≡ (D.seen.view disk.old).contents)
        × NoMore (D.seen.may_leave disk.old) (D.seen.may_leave disk.new) × Throughout D.seen disk.old disk.new (λ t c. D.seen.may_leave disk.old c) }
    // Only the store of an empty log is written, whatever the answer.
    ensures spared { IfSome (D.seen.view disk.old).contents (λ c. (IsStore [] c → ⊥) → ((D.seen.view disk.new).contents ≡ (D.seen.view disk.old).contents)
        × NoMore (D.seen.may_leave disk.old) (D.seen.may_leave disk.new) × Throughout D.seen disk.old disk.new (λ t c. D.seen.may_leave disk.old c)) }
    ensures limits { IfOk result (λ a. limits_of a ≡ limits) }
    // Where every image is a store of the same bodies, it stays one at each moment.
    ensures stays { (bodies : List (List ℕ)) → ((c : Image) → D.seen.may_leave disk.old c → HasStore bodies c) → (c : Image) → D.seen.may_leave disk.new c
        → HasStore bodies c }
    ensures any_moment { (bodies : List (List ℕ)) → ((c : Image) → D.seen.may_leave disk.old c → HasStore bodies c)
        → Throughout D.seen disk.old disk.new (λ t c. HasStore bodies c) }
    ensures recorded { Recorded (D.seen.view disk.old) (D.seen.view disk.new) }
    ensures fault { IsErrOf result open_fault.DiskFault → Rose (D.seen.view disk.old).disk_faults (D.seen.view disk.new).disk_faults }
    ensures disk_alone { DiskAlone (D.seen.view disk.old) (D.seen.view disk.new) }
{
    bodies_have_one_log();
    stores_have_one_reading();
    match SegLog::open_log(alloc, disk) {
        Err(LogFault::DiskFault) => Err(OpenFault::DiskFault),
        Err(LogFault::NotAStore { at }) => Err(OpenFault::NotAStore { at }),
        Err(LogFault::NoMemory) => Err(OpenFault::NoMemory),
        Ok(log) => match walk(alloc, disk, &log) {
            Err(fault) => Err(fault),
            Ok((index, used)) => Ok(Archive {
                log,
                limits,
                used,
                index,
                doubt: None,
            }),
        },
    }
}
