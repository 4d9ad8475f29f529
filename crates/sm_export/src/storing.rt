//! Exporting from the store in a folder.
ghost use Rattle.std.specs.Prelude.{◌≡◌, ◌≤◌, ℕ, List, None, IsSome, false, string_bytes};
ghost use Rattle.sm_model.specs.declared.entry.Entry.{Entry};
ghost use Rattle.sm_site.specs.Clauses.{NoMore, Throughout};
ghost use Rattle.sm_site.specs.Meanings.{DiskAlone};
ghost use Rattle.sm_archive.specs.Stands.{Stands};
ghost use Rattle.sm_archive.specs.Store.{IsStore};
ghost use Rattle.sm_origin.specs.Opening.{HasOneStore};
ghost use Rattle.sm_command.specs.declared.fault.StoreFault.TheVariants as fault;
ghost use Rattle.sm_command.specs.Lasting.{AtEachMoment, IsSilent, KeepsStores, Spared};
ghost use Rattle.sm_export.specs.declared.exported.StoreExport.TheVariants as ends;
ghost use Rattle.sm_export.specs.Reading.{IsOnlyRead};
ghost use Rattle.sm_export.specs.Storing.{ComesTo, IsChosenFor, TakesTo};
ghost use Rattle.sm_ends.specs.Ended.{end_of};

use crate::{StoreExport, export};
use sm_archive::Archive;
use sm_command::{choose, open_archive};
use sm_ends::{INPUT_MOST, Sink, Source, read_input};
use sm_model::Name;
use sm_site::{Disk, Selection, Site};
use std::alloc::Global;

// Reads the input, and exports from an archive.
fn export_input<I: Source, O: Sink, D: Disk>(
    alloc: Global,
    input: &mut I,
    out: &mut O,
    disk: &mut D,
    archive: &Archive,
    name: &Name,
    bitrate: u32,
) -> StoreExport
    requires stands { (log : List Entry) × Stands archive.now log None (D.seen.may_leave disk.old) }
    ensures means { (log : List Entry) → Stands archive.now log None (D.seen.may_leave disk.old)
        → TakesTo (IsSome (D.seen.view disk.old).contents) log name.now bitrate
        (D.seen.view disk.old) (D.seen.view disk.new) (end_of I.left I.faults input.old) (end_of I.left I.faults input.new)
        (end_of O.held O.faults out.old) (end_of O.held O.faults out.new) result }
    ensures counted { I.faults input.old ≤ I.faults input.new }
    ensures later { O.faults out.old ≤ O.faults out.new }
    ensures read { IsOnlyRead D.seen archive.now disk.old disk.new }
{
    match read_input(alloc, input, INPUT_MOST) {
        Ok(text) => {
            let exported = export(alloc, disk, archive, text.as_slice(), name, bitrate, out);
            StoreExport::Ended(exported)
        }
        Err(fault) => StoreExport::Unread(fault),
    }
}

// Exports from the store of a disk whose folder was chosen.
fn export_disk<I: Source, O: Sink, D: Disk>(
    alloc: Global,
    input: &mut I,
    out: &mut O,
    disk: &mut D,
    name: &Name,
    bitrate: u32,
) -> StoreExport
    ensures means { ComesTo name.now bitrate (D.seen.view disk.old) (D.seen.view disk.new)
        (end_of I.left I.faults input.old) (end_of I.left I.faults input.new)
        (end_of O.held O.faults out.old) (end_of O.held O.faults out.new) result }
    ensures counted { I.faults input.old ≤ I.faults input.new }
    ensures later { O.faults out.old ≤ O.faults out.new }
    ensures any_moment { (log : List Entry) → HasOneStore log (D.seen.may_leave disk.old)
        → Throughout D.seen disk.old disk.new (λ t c. IsStore log c) }
    ensures untouched { (at : ℕ) → result ≡ ends.Unopened (fault.NotAStore at) → ((D.seen.view disk.new).contents ≡ (D.seen.view disk.old).contents)
        × NoMore (D.seen.may_leave disk.old) (D.seen.may_leave disk.new) × Throughout D.seen disk.old disk.new (λ t c. D.seen.may_leave disk.old c) }
    ensures spared { Spared D.seen disk.old disk.new }
    ensures disk_alone { DiskAlone (D.seen.view disk.old) (D.seen.view disk.new) }
{
    match open_archive(alloc, disk) {
        Ok(archive) => export_input(alloc, input, out, disk, &archive, name, bitrate),
        Err(fault) => StoreExport::Unopened(fault),
    }
}

/// Exports a quality from the store in that folder, which is opened before the input is read, at most 268,435,456 bytes to its end; then as
/// `export` says. The store stays as it is: a file that is fresh is made, and nothing else is written, and a folder that isn't there isn't
/// made.
pub fn export_store<I: Source, O: Sink, S: Site>(
    alloc: Global,
    input: &mut I,
    out: &mut O,
    site: &mut S,
    store: String,
    name: &Name,
    bitrate: u32,
) -> StoreExport
    // No other folder is chosen, none is made, and no port is chosen.
    ensures chosen { IsChosenFor result (record { store = string_bytes store; make = false; port = 0; bind = None; journal = None })
        (S.Disk.seen.view site.old) (S.Disk.seen.view site.new) }
    ensures means { ComesTo name.now bitrate (S.Disk.seen.view site.old) (S.Disk.seen.view site.new)
        (end_of I.left I.faults input.old) (end_of I.left I.faults input.new)
        (end_of O.held O.faults out.old) (end_of O.held O.faults out.new) result }
    ensures counted { I.faults input.old ≤ I.faults input.new }
    ensures later { O.faults out.old ≤ O.faults out.new }
    // Where each image that a crash might have left was one store, a crash leaves that store at each moment.
    ensures any_moment { (log : List Entry) → HasOneStore log (S.Disk.seen.may_leave site.old)
        → AtEachMoment S.Disk.seen site.old site.new (IsStore log) }
    // So the store that was there outlasts the call; what is found to be no store isn't written, and what is none isn't, whatever the answer.
    ensures stores { KeepsStores S.Disk.seen site.old site.new ((at : ℕ) × (result ≡ ends.Unopened (fault.NotAStore at))) }
    // Nothing is taken from the link, and nothing is sent.
    ensures silent { IsSilent (S.Disk.seen.view site.old) (S.Disk.seen.view site.new) }
{
    let folder = Selection {
        store,
        make: false,
        port: 0,
        bind: None,
        journal: None,
    };
    match choose(site, folder) {
        Ok(()) => export_disk(alloc, input, out, site, name, bitrate),
        Err(fault) => StoreExport::Unopened(fault),
    }
}
