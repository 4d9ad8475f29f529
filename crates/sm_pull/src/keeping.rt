//! Keeping what was read.
ghost use Rattle.std.specs.Prelude.{◌≡◌, ◌⊎◌, ◌≤◌, ◌++◌, ◌∷◌, [], ℕ, List, None, Some, OnOk, IfErr, IsErrOf, IsSome, is_some};
ghost use Rattle.sm_model.specs.declared.entry.Entry.{Entry};
ghost use Rattle.sm_model.specs.Entries.{address_of};
ghost use Rattle.sm_model.specs.Fragments.{IsValid};
ghost use Rattle.sm_log.specs.Logs.{kept_at, verdict_on};
ghost use Rattle.sm_log.specs.declared.verdict.Judged.TheVariants.{New};
ghost use Rattle.sm_archive.specs.Stands.{Stands};
ghost use Rattle.sm_archive.specs.declared.answers.Keeping.TheVariants as keepings;
ghost use Rattle.sm_site.specs.Clauses.{Rose};
ghost use Rattle.sm_pull.specs.Adds.{Adds, IsStopOf, NotKept};
ghost use Rattle.sm_pull.specs.declared.stop.Stop.TheVariants as stop;

use crate::Stop;
use sm_archive::{Archive, Keeping};
use sm_log::law::kept_is_added;
use sm_model::{Address, Fragment};
use sm_site::Disk;
use std::alloc::Global;

// Why it wasn't kept, as it is told of that address.
fn stop_of(keeping: Keeping, address: Address) -> Result<(), Stop>
    requires { (place : ℕ) → keeping ≡ keepings.Known place → ⊥ }
    ensures stop { IsStopOf keeping address result }
    ensures fault { IsErrOf result stop.DiskFault → keeping ≡ keepings.DiskFault }
{
    match keeping {
        Keeping::Kept { place: _ } => Ok(()),
        Keeping::Known { place: _ } => unreachable!(),
        Keeping::Refused(cause) => Err(Stop::Refused { address, cause }),
        Keeping::Full => Err(Stop::Full),
        Keeping::DiskFault => Err(Stop::DiskFault),
        Keeping::NoMemory => Err(Stop::NoMemory),
    }
}

/// Keeps a fragment of an address at which nothing is kept, where nothing is in doubt. Where it isn't kept it may be in doubt behind
/// `DiskFault`; behind any other answer it isn't.
pub fn keep<D: Disk>(
    alloc: Global,
    disk: &mut D,
    archive: &mut Archive,
    fragment: &Fragment,
    address: Address,
) -> Result<(), Stop>
    requires valid { IsValid fragment.now }
    requires address { address ≡ address_of fragment.now }
    requires stands { (log : List Entry) × Stands archive.old log None (D.seen.may_leave disk.old) }
    requires absent { (log : List Entry) → Stands archive.old log None (D.seen.may_leave disk.old) → kept_at log (address_of fragment.now) ≡ None }
    ensures ok { OnOk result ((log : List Entry) → Stands archive.old log None (D.seen.may_leave disk.old) → (verdict_on log fragment.now ≡ New)
        × Adds D.seen disk.old disk.new archive.old archive.new log (fragment.now ∷ []) []) }
    ensures err { IfErr result (λ why. (log : List Entry) → Stands archive.old log None (D.seen.may_leave disk.old)
        → NotKept archive.new log fragment.now address why
        × Adds D.seen disk.old disk.new archive.old archive.new log [] (fragment.now ∷ [])) }
    ensures fault { IsErrOf result stop.DiskFault → Rose (D.seen.view disk.old).disk_faults (D.seen.view disk.new).disk_faults }
{
    kept_is_added();
    stop_of(archive.keep(alloc, disk, fragment), address)
}
