//! Listing what a store keeps.
ghost use Rattle.std.specs.Prelude.{◌≡◌, ◌≤◌, ◌++◌, ℕ, List, Option, None, IfOk, IfErr, IfSome, OnOk, IsErrOf, IsSome, is_some, string_bytes, slice_get, false};
ghost use Rattle.sm_model.specs.declared.entry.Entry.{Entry};
ghost use Rattle.sm_site.specs.Clauses.{NoMore, Throughout};
ghost use Rattle.sm_site.specs.Meanings.{DiskAlone};
ghost use Rattle.sm_archive.specs.Stands.{Keeps, Stands};
ghost use Rattle.sm_archive.specs.Store.{IsStore};
ghost use Rattle.sm_origin.specs.Opening.{HasOneStore};
ghost use Rattle.sm_command.specs.declared.fault.StoreFault.TheVariants as fault;
ghost use Rattle.sm_command.specs.Choosing.{IsChosen};
ghost use Rattle.sm_command.specs.Lasting.{AtEachMoment, IsSilent, KeepsStores, Spared};
ghost use Rattle.sm_command.specs.Listing.{kept_line, line_in, place_text, span_text, lines_of, AddressIs, UnlistedBy, WhyUnlisted, WhyUnput};

use crate::StoreFault;
use crate::choosing::choose;
use crate::opening::open_archive;
use sm_archive::{Archive, Fetched};
use sm_log::law::kept_is_added;
use sm_model::{Address, Bytes, Fragment, NoMemory};
use sm_site::{Disk, Selection, Site};
use std::alloc::Global;

fn put_place(alloc: Global, place: u64, fragment: &Fragment) -> Result<String, NoMemory>
    ensures { IfOk result (λ text. string_bytes text ≡ place_text place fragment.now) }
{
    let stream = fragment.stream.as_str();
    let bitrate = fragment.bitrate;
    Ok(format!(in alloc; "keep {place} {stream} {bitrate}")?)
}

fn put_span(alloc: Global, fragment: &Fragment) -> Result<String, NoMemory>
    ensures { IfOk result (λ text. string_bytes text ≡ span_text fragment.now) }
{
    let time = fragment.time;
    let duration = fragment.duration;
    let samples = fragment.samples.len();
    Ok(format!(in alloc; " {time} {duration} {samples}\n")?)
}

// Puts a text behind another.
fn put_behind(text: &mut String, more: &str) -> Result<(), NoMemory>
    ensures { OnOk result (string_bytes text.new ≡ string_bytes text.old ++ more.now) }
{
    text.push_str(more)?;
    Ok(())
}

// The line of a fragment that is kept at a place.
fn put_line(alloc: Global, place: u64, fragment: &Fragment) -> Result<String, NoMemory>
    ensures { IfOk result (λ line. string_bytes line ≡ kept_line place fragment.now) }
{
    let mut line = put_place(alloc, place, fragment)?;
    let span = put_span(alloc, fragment)?;
    put_behind(&mut line, &span)?;
    Ok(line)
}

// The address of the fragment at a place, if one stands there.
fn address_at(alloc: Global, archive: &Archive, place: u64) -> Result<Option<Address>, NoMemory>
    ensures { (bodies : List (List ℕ)) (body : Option (List ℕ)) (log : List Entry) (doubt : Option Entry) → Keeps archive.now bodies body log doubt
        → IfOk result (AddressIs log place) }
{
    let Some(meta) = archive.meta(place) else {
        return Ok(None);
    };
    let Some(catalog) = archive.catalog() else {
        return Ok(None);
    };
    let tracks = catalog.channel().as_slice();
    let at = meta.track as usize;
    if at >= tracks.len() {
        return Ok(None);
    }
    let track = &tracks[at];
    Ok(Some(Address {
        stream: track.name.copy(alloc)?,
        bitrate: track.bitrate,
        time: meta.time,
    }))
}

// The line of the fragment at a place, and nothing where none stands there.
fn line_of<D: Disk>(
    alloc: Global,
    disk: &mut D,
    archive: &Archive,
    place: u64,
) -> Result<String, StoreFault>
    requires stands { (log : List Entry) × Stands archive.now log None (D.seen.may_leave disk.old) }
    ensures line { IfOk result (λ line. (log : List Entry) → Stands archive.now log None (D.seen.may_leave disk.old) → IsSome (D.seen.view disk.old).contents
        → string_bytes line ≡ line_in place (slice_get log place)) }
    ensures stands { (log : List Entry) → Stands archive.now log None (D.seen.may_leave disk.old) → Stands archive.now log None (D.seen.may_leave disk.new) }
    ensures why { IfErr result (λ why. WhyUnput (D.seen.view disk.old) (D.seen.view disk.new) why) }
    ensures told { is_some (D.seen.view disk.new).contents ≡ is_some (D.seen.view disk.old).contents }
    ensures any_moment { Throughout D.seen disk.old disk.new (λ t c. D.seen.may_leave disk.old c) }
    ensures disk_alone { DiskAlone (D.seen.view disk.old) (D.seen.view disk.new) }
{
    kept_is_added();
    let Some(address) = address_at(alloc, archive, place)? else {
        return Ok(String::new(alloc));
    };
    match archive.fetch(alloc, disk, &address) {
        Fetched::Found { place: _, fragment } => Ok(put_line(alloc, place, &fragment)?),
        Fetched::Absent => Err(StoreFault::Damaged),
        Fetched::Damaged => Err(StoreFault::Damaged),
        Fetched::DiskFault => Err(StoreFault::DiskFault),
        Fetched::NoMemory => Err(StoreFault::NoMemory),
    }
}

fn bytes_of(text: String) -> Bytes
    ensures { result ≡ string_bytes text }
{
    Bytes::from_vec(text.into_bytes())
}

// The lines of all places.
fn lines<D: Disk>(alloc: Global, disk: &mut D, archive: &Archive) -> Result<Bytes, StoreFault>
    requires stands { (log : List Entry) × Stands archive.now log None (D.seen.may_leave disk.old) }
    ensures lines { IfOk result (λ text. (log : List Entry) → Stands archive.now log None (D.seen.may_leave disk.old) → IsSome (D.seen.view disk.old).contents
        → text ≡ lines_of log) }
    ensures why { IfErr result (λ why. WhyUnput (D.seen.view disk.old) (D.seen.view disk.new) why) }
    ensures any_moment { Throughout D.seen disk.old disk.new (λ t c. D.seen.may_leave disk.old c) }
    ensures disk_alone { DiskAlone (D.seen.view disk.old) (D.seen.view disk.new) }
{
    let mut text = String::new(alloc);
    for place in 0..archive.len() {
        let line = line_of(alloc, disk, archive, place)?;
        put_behind(&mut text, &line)?;
    }
    Ok(bytes_of(text))
}

// The list of a store whose folder was chosen.
fn list_disk<D: Disk>(alloc: Global, disk: &mut D) -> Result<Bytes, StoreFault>
    ensures listed { IfOk result (λ text. IfSome (D.seen.view disk.old).contents (λ c. (log : List Entry) × IsStore log c × (text ≡ lines_of log))) }
    ensures why { IfErr result (λ why. UnlistedBy (D.seen.view disk.old) (D.seen.view disk.new) why) }
    ensures any_moment { (log : List Entry) → HasOneStore log (D.seen.may_leave disk.old)
        → Throughout D.seen disk.old disk.new (λ t c. IsStore log c) }
    ensures untouched { (at : ℕ) → IsErrOf result (fault.NotAStore at) → ((D.seen.view disk.new).contents ≡ (D.seen.view disk.old).contents)
        × NoMore (D.seen.may_leave disk.old) (D.seen.may_leave disk.new) × Throughout D.seen disk.old disk.new (λ t c. D.seen.may_leave disk.old c) }
    ensures spared { Spared D.seen disk.old disk.new }
    ensures disk_alone { DiskAlone (D.seen.view disk.old) (D.seen.view disk.new) }
{
    let archive = open_archive(alloc, disk)?;
    lines(alloc, disk, &archive)
}

/// The list of what is kept in the store in that folder: for each fragment, in the order of the log, a line with its place, its
/// stream's name, its bitrate, its start, its duration and the number of its samples. The store stays as it is: a file that is fresh is
/// made, and nothing else is written.
pub fn list_store<S: Site>(alloc: Global, site: &mut S, store: String) -> Result<Bytes, StoreFault>
    // No other folder is chosen, none is made, and no port is chosen.
    ensures chosen { IsChosen result (record { store = string_bytes store; make = false; port = 0; bind = None; journal = None })
        (S.Disk.seen.view site.old) (S.Disk.seen.view site.new) }
    ensures listed { IfOk result (λ text. IfSome (S.Disk.seen.view site.old).contents (λ c. (log : List Entry) × IsStore log c × (text ≡ lines_of log))) }
    ensures why { IfErr result (λ why. WhyUnlisted S.Disk.seen site.old site.new why) }
    // Where each image that a crash might have left was one store, a crash leaves that store at each moment.
    ensures any_moment { (log : List Entry) → HasOneStore log (S.Disk.seen.may_leave site.old)
        → AtEachMoment S.Disk.seen site.old site.new (IsStore log) }
    // So the store that was there outlasts the call, and files that are no store aren't written, whatever the answer.
    ensures stores { KeepsStores S.Disk.seen site.old site.new ((at : ℕ) × IsErrOf result (fault.NotAStore at)) }
    // Nothing is taken from the link, and nothing is sent.
    ensures silent { IsSilent (S.Disk.seen.view site.old) (S.Disk.seen.view site.new) }
{
    let folder = Selection {
        store,
        make: false,
        port: 0,
        bind: None,
        journal: None,
    };
    choose(site, folder)?;
    list_disk(alloc, site)
}
