//! Opening a store as an archive, for commands that don't serve it.
ghost use Rattle.std.specs.Prelude.{◌≡◌, ◌≤◌, ◌⊎◌, ℕ, List, Option, None, Ok, IfOk, IfErr, IsErrOf, IsSome, OnOk, is_some};
ghost use Rattle.sm_model.specs.Channels.{IsChannel};
ghost use Rattle.sm_model.specs.declared.entry.Entry.{Entry};
ghost use Rattle.sm_site.specs.Clauses.{NoMore, Throughout};
ghost use Rattle.sm_site.specs.Meanings.{DiskAlone};
ghost use Rattle.sm_archive.specs.Stands.{Stands};
ghost use Rattle.sm_archive.specs.Store.{IsStore};
ghost use Rattle.sm_origin.specs.Opening.{HasOneStore};
ghost use Rattle.sm_command.specs.declared.fault.StoreFault.TheVariants as fault;
ghost use Rattle.sm_command.specs.Lasting.{Spared};
ghost use Rattle.sm_command.specs.Opening.{Agrees, BeginsWith, IsDeclared, IsOpened, WhyUndeclared};
ghost use Rattle.sm_command.specs.Serving.{IsLadderInput, NotRead, WhyUnopened};
ghost use Rattle.sm_archive.specs.Seen.{limits_of};
ghost use Rattle.sm_ends.specs.Ended.{end_of};

use crate::StoreFault;
use crate::start::{ladder_of, outcome_of};
use sm_archive::{Archive, Limits, OpenFault, bodies_have_one_log, open_store};
use sm_ends::Source;
use sm_model::Channel;
use sm_seglog::law::stores_have_one_reading;
use sm_site::Disk;
use std::alloc::Global;

/// Opens the store of a disk whose folder was chosen, under the standard limits. A file that is fresh is made; nothing else is written,
/// and what is no store isn't touched.
pub fn open_archive<D: Disk>(alloc: Global, disk: &mut D) -> Result<Archive, StoreFault>
    ensures opened { IfOk result (λ archive. IsOpened D.seen archive disk.old disk.new) }
    ensures why { IfErr result (λ why. WhyUnopened (D.seen.view disk.old) (D.seen.view disk.new) why) }
    // Where each image that a crash might have left was one store, a crash leaves that store at each moment, and behind the call too.
    ensures any_moment { (log : List Entry) → HasOneStore log (D.seen.may_leave disk.old)
        → Throughout D.seen disk.old disk.new (λ t c. IsStore log c) }
    ensures stays { (log : List Entry) → HasOneStore log (D.seen.may_leave disk.old) → HasOneStore log (D.seen.may_leave disk.new) }
    // What is no store isn't written: the contents stay, and at no moment a crash leaves what it couldn't leave before.
    ensures untouched { (at : ℕ) → IsErrOf result (fault.NotAStore at) → ((D.seen.view disk.new).contents ≡ (D.seen.view disk.old).contents)
        × NoMore (D.seen.may_leave disk.old) (D.seen.may_leave disk.new) × Throughout D.seen disk.old disk.new (λ t c. D.seen.may_leave disk.old c) }
    ensures spared { Spared D.seen disk.old disk.new }
    ensures told { is_some (D.seen.view disk.new).contents ≡ is_some (D.seen.view disk.old).contents }
    ensures disk_alone { DiskAlone (D.seen.view disk.old) (D.seen.view disk.new) }
{
    match open_store(alloc, disk, Limits::standard()) {
        Ok(archive) => Ok(archive),
        Err(OpenFault::DiskFault) => Err(StoreFault::DiskFault),
        Err(OpenFault::NotAStore { at }) => Err(StoreFault::NotAStore { at }),
        Err(OpenFault::NoMemory) => Err(StoreFault::NoMemory),
    }
}

// Declares a channel to an archive.
fn declare_to<D: Disk>(
    alloc: Global,
    disk: &mut D,
    archive: &mut Archive,
    channel: &Channel,
) -> Result<(), StoreFault>
    requires valid { IsChannel channel.now }
    requires stands { (log : List Entry) × Stands archive.old log None (D.seen.may_leave disk.old) }
    ensures agrees { (told told' : Option (List ℕ)) → IsLadderInput told told' (Ok channel.now) → (log : List Entry)
        → Stands archive.old log None (D.seen.may_leave disk.old) → Agrees D.seen told told' log archive.new disk.old disk.new result }
    ensures stands { OnOk result ((log : List Entry) × Stands archive.new log None (D.seen.may_leave disk.new)) }
    ensures any_moment { (log : List Entry) → Stands archive.old log None (D.seen.may_leave disk.old) → IsSome (D.seen.view disk.old).contents
        → Throughout D.seen disk.old disk.new (λ t c. BeginsWith log c) }
    ensures limits { limits_of archive.new ≡ limits_of archive.old }
    ensures disk_alone { DiskAlone (D.seen.view disk.old) (D.seen.view disk.new) }
{
    let answer = archive.declare(alloc, disk, channel);
    outcome_of(answer)
}

// Reads a ladder and declares its channel to an archive.
fn declare_input<I: Source, D: Disk>(
    alloc: Global,
    input: &mut I,
    disk: &mut D,
    archive: &mut Archive,
) -> Result<(), StoreFault>
    requires stands { (log : List Entry) × Stands archive.old log None (D.seen.may_leave disk.old) }
    ensures means { (log : List Entry) → Stands archive.old log None (D.seen.may_leave disk.old)
        → Agrees D.seen (I.left input.old) (I.left input.new) log archive.new disk.old disk.new result
        ⊎ (NotRead (end_of I.left I.faults input.old) (end_of I.left I.faults input.new) result × (disk.new ≡ disk.old)) }
    ensures stands { OnOk result ((log : List Entry) × Stands archive.new log None (D.seen.may_leave disk.new)) }
    ensures any_moment { (log : List Entry) → Stands archive.old log None (D.seen.may_leave disk.old) → IsSome (D.seen.view disk.old).contents
        → Throughout D.seen disk.old disk.new (λ t c. BeginsWith log c) }
    ensures limits { limits_of archive.new ≡ limits_of archive.old }
    ensures disk_alone { DiskAlone (D.seen.view disk.old) (D.seen.view disk.new) }
    ensures counted { I.faults input.old ≤ I.faults input.new }
{
    let channel = ladder_of(alloc, input)?;
    declare_to(alloc, disk, archive, &channel)
}

/// Opens the store of a disk whose folder was chosen, as `open_archive` does, reads the input to its end as a ladder, at most
/// 1,048,576 bytes, and declares its channel; one that stands already is to have its tracks.
pub fn open_declared<I: Source, D: Disk>(
    alloc: Global,
    input: &mut I,
    disk: &mut D,
) -> Result<Archive, StoreFault>
    ensures declared { IfOk result (λ archive. IsDeclared D.seen (end_of I.left I.faults input.old)
        (end_of I.left I.faults input.new) archive disk.old disk.new) }
    ensures why { IfErr result (λ why. WhyUndeclared D.seen (end_of I.left I.faults input.old)
        (end_of I.left I.faults input.new) disk.old disk.new why) }
    // Where each image that a crash might have left was one store, a crash leaves at each moment a store whose log begins with that one.
    ensures any_moment { IsSome (D.seen.view disk.old).contents → (log : List Entry) → HasOneStore log (D.seen.may_leave disk.old)
        → Throughout D.seen disk.old disk.new (λ t c. BeginsWith log c) }
    // What is no store isn't written: the contents stay, and at no moment a crash leaves what it couldn't leave before.
    ensures untouched { (at : ℕ) → IsErrOf result (fault.NotAStore at) → ((D.seen.view disk.new).contents ≡ (D.seen.view disk.old).contents)
        × NoMore (D.seen.may_leave disk.old) (D.seen.may_leave disk.new) × Throughout D.seen disk.old disk.new (λ t c. D.seen.may_leave disk.old c) }
    ensures spared { Spared D.seen disk.old disk.new }
    ensures disk_alone { DiskAlone (D.seen.view disk.old) (D.seen.view disk.new) }
    ensures counted { I.faults input.old ≤ I.faults input.new }
{
    bodies_have_one_log();
    stores_have_one_reading();
    let mut archive = open_archive(alloc, disk)?;
    declare_input(alloc, input, disk, &mut archive)?;
    Ok(archive)
}
