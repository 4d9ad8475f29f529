//! Exporting one quality.
ghost use Rattle.std.specs.Prelude.{◌≡◌, ◌≤◌, ◌<◌, ◌^◌, List, [], ◌++◌, Option, Some, IfErr, IfOk, IsSome, length};
ghost use Rattle.std.specs.Io.KnownBytes.{Appends};
ghost use Rattle.sm_ends.specs.Faults.{Rose as FaultsRose};
ghost use Rattle.sm_model.specs.declared.entry.Entry.{Entry};
ghost use Rattle.sm_site.specs.Clauses.{Rose, Throughout};
ghost use Rattle.sm_site.specs.Meanings.{DiskAlone};
ghost use Rattle.sm_archive.specs.Stands.{Stands};
ghost use Rattle.sm_export.specs.Exporting.{texts_from, ExportedAs};
ghost use Rattle.sm_export.specs.Qualities.{kept_among};
ghost use Rattle.sm_export.specs.Reading.{IsOnlyRead, WentOut, WhyBroken};
ghost use Rattle.sm_export.specs.declared.exported.Exported.TheVariants as exported;

use crate::Exported;
use crate::fit::{Unfit, id_in};
use crate::gathering::Broken;
use crate::head::{Unread, read_head};
use crate::writing::write_times;
use sm_archive::Archive;
use sm_ends::{Sink, write_all};
use sm_model::{Cause, Name};
use sm_site::Disk;
use std::alloc::Global;

// The header, and the fragments that are kept at these times.
fn write_file<D: Disk, O: Sink>(
    alloc: Global,
    disk: &mut D,
    archive: &Archive,
    header: &[u8],
    name: &Name,
    bitrate: u32,
    times: &[(u64, u64)],
    id: u32,
    out: &mut O,
) -> Result<u64, Broken>
    requires stands { (log : List Entry) × (doubt : Option Entry) × Stands archive.now log doubt (D.seen.may_leave disk.old) }
    requires few { length times.now < 2 ^ 32 }
    // A track_ID has 32 bits.
    ensures narrow { id < 2 ^ 32 }
    ensures ok { IfOk result (λ written. (log : List Entry) (doubt : Option Entry) → Stands archive.now log doubt (D.seen.may_leave disk.old)
        → IsSome (D.seen.view disk.old).contents
        → Appends (O.held out.old) (O.held out.new) (header.now ++ texts_from 1 id (kept_among log name.now bitrate times.now))
        × (written ≡ length (kept_among log name.now bitrate times.now))) }
    ensures err { IfErr result (λ why. (log : List Entry) (doubt : Option Entry) → Stands archive.now log doubt (D.seen.may_leave disk.old)
        → IsSome (D.seen.view disk.old).contents
        → WentOut why (O.held out.old) (O.held out.new) header.now (texts_from 1 id (kept_among log name.now bitrate times.now))) }
    ensures cause { WhyBroken (D.seen.view disk.old) (D.seen.view disk.new) (O.faults out.old) (O.faults out.new) result }
    ensures read { IsOnlyRead D.seen archive.now disk.old disk.new }
{
    write_all(out, header)?;
    write_times(alloc, disk, archive, name, bitrate, times, id, out)
}

/// Writes the quality of that name and bitrate as a fragmented file (ISO/IEC 14496-12, 8.8): the header of a pushed input, which is its
/// shortest front that has one, and then each fragment that the archive keeps of the quality, in the order of time, numbered from 1,
/// with the track_ID that the header gives to the track. Nothing is written before the whole input was read and the header was found to
/// agree with the channel. The disk is only read.
pub fn export<D: Disk, O: Sink>(
    alloc: Global,
    disk: &mut D,
    archive: &Archive,
    input: &[u8],
    name: &Name,
    bitrate: u32,
    out: &mut O,
) -> Exported
    requires stands { (log : List Entry) × (doubt : Option Entry) × Stands archive.now log doubt (D.seen.may_leave disk.old) }
    ensures exported { (log : List Entry) (doubt : Option Entry) → Stands archive.now log doubt (D.seen.may_leave disk.old)
        → ExportedAs (IsSome (D.seen.view disk.old).contents) log input.now name.now bitrate (O.held out.old) (O.held out.new) result }
    ensures disk_fault { result ≡ exported.DiskFault → Rose (D.seen.view disk.old).disk_faults (D.seen.view disk.new).disk_faults }
    ensures fault { result ≡ exported.WriteFault → FaultsRose (O.faults out.old) (O.faults out.new) }
    ensures later { O.faults out.old ≤ O.faults out.new }
    ensures stands { (log : List Entry) (doubt : Option Entry) → Stands archive.now log doubt (D.seen.may_leave disk.old)
        → Stands archive.now log doubt (D.seen.may_leave disk.new) }
    ensures any_moment { Throughout D.seen disk.old disk.new (λ t c. D.seen.may_leave disk.old c) }
    ensures disk_alone { DiskAlone (D.seen.view disk.old) (D.seen.view disk.new) }
{
    let head = match read_head(alloc, input, name, bitrate) {
        Ok(head) => head,
        Err(Unread::Refused(refusal)) => return Exported::Input(refusal),
        Err(Unread::NoMemory) => return Exported::NoMemory { begun: false },
    };
    let Some(catalog) = archive.catalog() else {
        return Exported::Other(Cause::NoChannel);
    };
    let (header, _) = input.split_at(head.len);
    let id = match id_in(alloc, catalog, head, name, bitrate) {
        Ok(id) => id,
        Err(Unfit::Refused(cause)) => return Exported::Other(cause),
        Err(Unfit::NoMemory) => return Exported::NoMemory { begun: false },
    };
    let times = catalog.times(name);
    match write_file(alloc, disk, archive, header, name, bitrate, times, id, out) {
        Ok(written) => Exported::Done { written },
        Err(Broken::DiskFault) => Exported::DiskFault,
        Err(Broken::Damaged) => Exported::Damaged,
        Err(Broken::WriteFault) => Exported::WriteFault,
        Err(Broken::NoMemory) => Exported::NoMemory { begun: true },
    }
}
