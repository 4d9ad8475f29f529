//! Bringing the shelf up to the log.
ghost use Rattle.std.specs.Prelude.{◌≡◌, ◌≢◌, ◌≤◌, ◌<◌, ◌↔◌, ℕ, List, Some, IsSome, option_map, slice_get};
ghost use Rattle.sm_model.specs.declared.entry.Entry.{Entry};
ghost use Rattle.sm_model.specs.declared.entry.Entry.TheVariants.{Keep};
ghost use Rattle.sm_model.specs.Fragments.{IsValid};
ghost use Rattle.sm_log.specs.Logs.{IsSound};
ghost use Rattle.sm_log.specs.Digests.{digest_of};
ghost use Rattle.sm_serve.specs.Standing.{History, StandsForSome};
ghost use Rattle.sm_serve.specs.Serving.{Serves};
ghost use Rattle.sm_shelf.specs.Shelf.{Belongs, height_of};
ghost use Rattle.sm_show.specs.declared.outcome.Up.TheVariants.{Whole, Behind};
ghost use Rattle.sm_show.specs.Recalling.{BringsUp, Lists, Publishes, Shows};
ghost use Rattle.sm_origin.specs.Seen.{archive_of};

use crate::outcome::{Up, up_of};
use crate::reading::{fetch, read_back};
use sm_catalog::Catalog;
use sm_model::{Entry, Fragment, NoMemory};
use sm_serve::State;
use sm_shelf::ShelfWriter;
use sm_shelf::law::{catalogs_of_logs_fit, heights_tell};
use sm_site::Site;
use std::sync::Wait;

// The catalog of the log.
fn catalog_of(state: &State) -> Option<&Catalog>
    ensures { Shows (archive_of state.now.origin) (option_map (λ c. c.now) result) }
{
    state.archive().catalog()
}

// Puts the fragment on the shelf that stands in the log behind what is published.
fn put<R: Wait, S: Site>(rt: &R, site: &S, writer: &mut ShelfWriter, fragment: Fragment) -> Up
    requires { IsValid fragment }
    ensures belongs { (log : List Entry) → IsSound log → Belongs log writer.old → slice_get log (height_of writer.old.published) ≡ Some (Keep fragment)
        → Belongs log writer.new }
    ensures short { result ≢ Whole → writer.new.published ≡ writer.old.published }
    ensures none { result ≢ Behind }
    ensures table { writer.new.table ≡ writer.old.table }
    ensures publishes { Publishes (S.Disk.seen.view site.now).transcript writer.old writer.new }
{
    match writer.put(rt, site, &Entry::Keep(fragment)) {
        Ok(()) => Up::Whole,
        Err(NoMemory) => Up::Short,
    }
}

// Brings a shelf that has nothing up to the log.
fn begin<R: Wait, S: Site>(
    rt: &R,
    site: &mut S,
    state: &State,
    catalog: &Catalog,
    writer: &mut ShelfWriter,
) -> Up
    requires { Lists S.Disk.seen state.now.origin catalog.now site.old }
    ensures brings { BringsUp S.Disk.seen state.now site.old site.new writer.old writer.new result }
    ensures short { result ≢ Whole → writer.new.published ≡ writer.old.published }
{
    catalogs_of_logs_fit();
    let window = match read_back(site, state, catalog) {
        Ok(window) => window,
        Err(lack) => return up_of(lack),
    };
    match writer.fill(rt, site, catalog, window.as_slice()) {
        Ok(()) => Up::Whole,
        Err(NoMemory) => Up::Short,
    }
}

// Brings the shelf up by one fragment, or to the whole log where it has nothing. `Whole` says that this was done.
fn step<R: Wait, S: Site>(rt: &R, site: &mut S, state: &State, writer: &mut ShelfWriter) -> Up
    requires stands { StandsForSome S.Disk.seen state.now.origin site.old }
    ensures brings { BringsUp S.Disk.seen state.now site.old site.new writer.old writer.new result }
    ensures short { result ≢ Whole → writer.new.published ≡ writer.old.published }
{
    catalogs_of_logs_fit();
    let Some(catalog) = catalog_of(state) else {
        return Up::Short;
    };
    let height = writer.height();
    if height == 0 {
        return begin(rt, site, state, catalog, writer);
    }
    match fetch(site, state, catalog, height - 1) {
        Ok(fragment) => put(rt, site, writer, fragment),
        Err(lack) => up_of(lack),
    }
}

/// Brings the shelf up to the log, as far as disk and memory allow. What is published then is the digest of a front of the log, and that of all of
/// it exactly where this says so.
pub fn catch_up<R: Wait, S: Site>(
    rt: &R,
    site: &mut S,
    state: &State,
    writer: &mut ShelfWriter,
) -> Up
    requires { StandsForSome S.Disk.seen state.now.origin site.old }
    ensures brings { BringsUp S.Disk.seen state.now site.old site.new writer.old writer.new result }
    ensures whole { (h : History) → Serves S.Disk.seen h state.now site.old → IsSome (S.Disk.seen.view site.old).contents
        → Belongs h.point.machine.log writer.old → (result ≡ Whole) ↔ (writer.new.published ≡ digest_of h.point.machine.log) }
{
    heights_tell();
    let len = state.archive().len();
    for _ in 0..len {
        if writer.height() >= len {
            return Up::Whole;
        }
        match step(rt, site, state, writer) {
            Up::Whole => {}
            Up::Behind => return Up::Behind,
            Up::Short => return Up::Short,
        }
    }
    if writer.height() >= len {
        Up::Whole
    } else {
        Up::Short
    }
}
