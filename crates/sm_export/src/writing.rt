//! Writing the fragments of one quality.
ghost use Rattle.std.specs.Prelude.{◌≡◌, ◌≤◌, ◌<◌, ◌+◌, ◌^◌, [], ◌++◌, List, Option, None, Some, Err, IfOk, OnErr, IsSome, is_some};
ghost use Rattle.std.specs.Prelude.{length};
ghost use Rattle.std.specs.List.{flat_map};
ghost use Rattle.std.specs.Io.KnownBytes.{Appends};
ghost use Rattle.sm_ends.specs.Moves.{AppendsFront};
ghost use Rattle.sm_model.specs.declared.address.Address.{Address};
ghost use Rattle.sm_model.specs.declared.entry.Entry.{Entry};
ghost use Rattle.sm_model.specs.Fragments.{IsValid};
ghost use Rattle.sm_model.specs.FragText.{frag_text};
ghost use Rattle.sm_archive.specs.Stands.{Stands};
ghost use Rattle.sm_export.specs.Exporting.{texts_from};
ghost use Rattle.sm_export.specs.Gathering.{IsPassedOn, Leaves, LeavesFront};
ghost use Rattle.sm_export.specs.Qualities.{kept_list, kept_among};
ghost use Rattle.sm_export.specs.Reading.{IsOnlyRead, WhyBroken};

use crate::gathering::{Broken, ROOM, pass_on, write_gathered, write_if_full};
use sm_archive::{Archive, Fetched};
use sm_ends::Sink;
use sm_log::law::kept_is_added;
use sm_model::{Address, Fragment, Name, NoMemory};
use sm_moof::{append_fragment_head, put_fragment};
use sm_site::Disk;
use std::alloc::Global;

// The text of one fragment, whose samples have these bytes together.
fn write_joined<O: Sink>(
    fragment: &Fragment,
    body: &[u8],
    seq: u32,
    id: u32,
    gathered: &mut Vec<u8>,
    out: &mut O,
) -> Result<(), Broken>
    requires valid { IsValid fragment.now }
    requires body { body.now ≡ flat_map (λ s. s.bytes) fragment.now.samples }
    ensures { IsPassedOn (O.held out.old) (O.held out.new) (O.faults out.old) (O.faults out.new)
        gathered.old.items gathered.new.items (frag_text seq id fragment.now []) result }
{
    let before = gathered.as_slice().len();
    match append_fragment_head(gathered, seq, id, fragment, &[]) {
        Ok(()) => pass_on(body, gathered, out),
        Err(NoMemory) => {
            gathered.truncate(before);
            Err(Broken::NoMemory)
        }
    }
}

// The text of one fragment, put together first.
fn write_text<O: Sink>(
    alloc: Global,
    fragment: &Fragment,
    seq: u32,
    id: u32,
    gathered: &mut Vec<u8>,
    out: &mut O,
) -> Result<(), Broken>
    requires { IsValid fragment.now }
    ensures { IsPassedOn (O.held out.old) (O.held out.new) (O.faults out.old) (O.faults out.new)
        gathered.old.items gathered.new.items (frag_text seq id fragment.now []) result }
{
    let text = put_fragment(alloc, seq, id, fragment, &[])?;
    pass_on(text.as_slice(), gathered, out)
}

// The text of one fragment, behind all that is gathered.
fn write_fragment<O: Sink>(
    alloc: Global,
    fragment: &Fragment,
    seq: u32,
    id: u32,
    gathered: &mut Vec<u8>,
    out: &mut O,
) -> Result<(), Broken>
    requires { IsValid fragment.now }
    ensures { IsPassedOn (O.held out.old) (O.held out.new) (O.faults out.old) (O.faults out.new)
        gathered.old.items gathered.new.items (frag_text seq id fragment.now []) result }
{
    write_if_full(gathered, out)?;
    match fragment.samples.joined() {
        Some(body) => write_joined(fragment, body, seq, id, gathered, out),
        None => write_text(alloc, fragment, seq, id, gathered, out),
    }
}

// What is kept at an address, if anything is: whether its text was passed on.
fn write_at<D: Disk, O: Sink>(
    alloc: Global,
    disk: &mut D,
    archive: &Archive,
    address: &Address,
    seq: u32,
    id: u32,
    gathered: &mut Vec<u8>,
    out: &mut O,
) -> Result<u32, Broken>
    requires stands { (log : List Entry) × (doubt : Option Entry) × Stands archive.now log doubt (D.seen.may_leave disk.old) }
    ensures few { IfOk result (λ wrote. wrote ≤ 1) }
    ensures ok { IfOk result (λ wrote. (log : List Entry) (doubt : Option Entry) → Stands archive.now log doubt (D.seen.may_leave disk.old)
        → IsSome (D.seen.view disk.old).contents
        → Leaves (O.held out.old) (O.held out.new) (gathered.old.items ++ texts_from seq id (kept_list log address.now)) gathered.new.items
        × (length (kept_list log address.now) ≡ wrote)) }
    ensures err { OnErr result ((log : List Entry) (doubt : Option Entry) → Stands archive.now log doubt (D.seen.may_leave disk.old)
        → IsSome (D.seen.view disk.old).contents
        → LeavesFront (O.held out.old) (O.held out.new) (gathered.old.items ++ texts_from seq id (kept_list log address.now)) gathered.new.items) }
    ensures cause { WhyBroken (D.seen.view disk.old) (D.seen.view disk.new) (O.faults out.old) (O.faults out.new) result }
    ensures read { IsOnlyRead D.seen archive.now disk.old disk.new }
    ensures told { is_some (D.seen.view disk.new).contents ≡ is_some (D.seen.view disk.old).contents }
{
    kept_is_added();
    match archive.fetch(alloc, disk, address) {
        Fetched::Found { place: _, fragment } => {
            write_fragment(alloc, &fragment, seq, id, gathered, out)?;
            Ok(1)
        }
        Fetched::Absent => Ok(0),
        Fetched::DiskFault => Err(Broken::DiskFault),
        Fetched::Damaged => Err(Broken::Damaged),
        Fetched::NoMemory => Err(Broken::NoMemory),
    }
}

// What is kept of a quality at these times, in their order, numbered from 1, of which an end may stay gathered: how many fragments there are.
fn gather_times<D: Disk, O: Sink>(
    alloc: Global,
    disk: &mut D,
    archive: &Archive,
    name: &Name,
    bitrate: u32,
    times: &[(u64, u64)],
    id: u32,
    gathered: &mut Vec<u8>,
    out: &mut O,
) -> Result<u64, Broken>
    requires stands { (log : List Entry) × (doubt : Option Entry) × Stands archive.now log doubt (D.seen.may_leave disk.old) }
    requires few { length times.now < 2 ^ 32 }
    ensures ok { IfOk result (λ written. (log : List Entry) (doubt : Option Entry) → Stands archive.now log doubt (D.seen.may_leave disk.old)
        → IsSome (D.seen.view disk.old).contents
        → Leaves (O.held out.old) (O.held out.new) (gathered.old.items ++ texts_from 1 id (kept_among log name.now bitrate times.now)) gathered.new.items
        × (written ≡ length (kept_among log name.now bitrate times.now))) }
    ensures err { OnErr result ((log : List Entry) (doubt : Option Entry) → Stands archive.now log doubt (D.seen.may_leave disk.old)
        → IsSome (D.seen.view disk.old).contents
        → LeavesFront (O.held out.old) (O.held out.new) (gathered.old.items ++ texts_from 1 id (kept_among log name.now bitrate times.now))
        gathered.new.items) }
    ensures cause { WhyBroken (D.seen.view disk.old) (D.seen.view disk.new) (O.faults out.old) (O.faults out.new) result }
    ensures read { IsOnlyRead D.seen archive.now disk.old disk.new }
{
    let mut address = Address {
        stream: name.copy(alloc)?,
        bitrate,
        time: 0,
    };
    let mut written: u32 = 0;
    for time in times {
        address.time = time.0;
        written += write_at(
            alloc,
            disk,
            archive,
            &address,
            written + 1,
            id,
            gathered,
            out,
        )?;
    }
    Ok(written as u64)
}

// What is kept of a quality at these times, in their order, numbered from 1: how many fragments there are. Whatever the answer, all that
// was gathered goes out, unless the sink fails.
pub(crate) fn write_times<D: Disk, O: Sink>(
    alloc: Global,
    disk: &mut D,
    archive: &Archive,
    name: &Name,
    bitrate: u32,
    times: &[(u64, u64)],
    id: u32,
    out: &mut O,
) -> Result<u64, Broken>
    requires stands { (log : List Entry) × (doubt : Option Entry) × Stands archive.now log doubt (D.seen.may_leave disk.old) }
    requires few { length times.now < 2 ^ 32 }
    ensures ok { IfOk result (λ written. (log : List Entry) (doubt : Option Entry) → Stands archive.now log doubt (D.seen.may_leave disk.old)
        → IsSome (D.seen.view disk.old).contents
        → Appends (O.held out.old) (O.held out.new) (texts_from 1 id (kept_among log name.now bitrate times.now))
        × (written ≡ length (kept_among log name.now bitrate times.now))) }
    ensures err { OnErr result ((log : List Entry) (doubt : Option Entry) → Stands archive.now log doubt (D.seen.may_leave disk.old)
        → IsSome (D.seen.view disk.old).contents
        → AppendsFront (O.held out.old) (O.held out.new) (texts_from 1 id (kept_among log name.now bitrate times.now))) }
    ensures cause { WhyBroken (D.seen.view disk.old) (D.seen.view disk.new) (O.faults out.old) (O.faults out.new) result }
    ensures read { IsOnlyRead D.seen archive.now disk.old disk.new }
{
    let Ok(mut gathered) = Vec::with_capacity(alloc, ROOM) else {
        return Err(Broken::NoMemory);
    };
    let ended = gather_times(
        alloc,
        disk,
        archive,
        name,
        bitrate,
        times,
        id,
        &mut gathered,
        out,
    );
    write_gathered(&mut gathered, out)?;
    ended
}
