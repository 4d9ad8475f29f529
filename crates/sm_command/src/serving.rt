//! Serving a store.
ghost use Rattle.std.specs.Prelude.{◌≡◌, ◌≤◌, IfOk, IfErr, OnErr};
ghost use Rattle.sm_serve.specs.Serving.{Begins, Serves, CountsNone};
ghost use Rattle.sm_serve.specs.Standing.{History, StandsForSome};
ghost use Rattle.sm_command.specs.Choosing.{IsChosen};
ghost use Rattle.sm_command.specs.Lasting.{Lasts, NoFewer, Spared};
ghost use Rattle.sm_command.specs.Serving.{HasRun, RunLasts, RunsFrom, StopsFrom, WhyUnready};
ghost use Rattle.sm_ends.specs.Ended.{end_of};

use crate::StoreFault;
use crate::start::{open_state, prepare};
use sm_archive::bodies_have_one_log;
use sm_ends::Source;
use sm_seglog::law::stores_have_one_reading;
use sm_serve::shown::crashes_hold_what_was_shown;
use sm_serve::{Served, State, serve};
use sm_site::{Selection, Site};
use std::alloc::Global;

// Serves from a state that was just opened.
fn serve_state<I: Source, S: Site>(
    alloc: Global,
    input: &mut I,
    site: &mut S,
    state: &mut State,
    ladder: bool,
    turns: u64,
) -> Result<Served, StoreFault>
    requires begins { Begins S.Disk.seen state.old site.old }
    requires stands { StandsForSome S.Disk.seen state.old.origin site.old }
    ensures run { IfOk result (λ end. RunsFrom S.Disk.seen ladder (I.left input.old) (I.left input.new) turns state.old site.old site.new end) }
    ensures why { IfErr result (λ why. StopsFrom S.Disk.seen ladder (end_of I.left I.faults input.old)
        (end_of I.left I.faults input.new) state.old site.old site.new why) }
    ensures silent { OnErr result ((S.Disk.seen.view site.new).transcript ≡ (S.Disk.seen.view site.old).transcript) }
    ensures no_fewer { OnErr result (NoFewer (S.Disk.seen.view site.old) (S.Disk.seen.view site.new)) }
    ensures counted { I.faults input.old ≤ I.faults input.new }
    ensures counts { IfOk result CountsNone }
    ensures chosen { (S.Disk.seen.view site.new).chosen ≡ (S.Disk.seen.view site.old).chosen }
    ensures lasts { (h : History) → Serves S.Disk.seen h state.old site.old → RunLasts S.Disk.seen h site.new }
{
    crashes_hold_what_was_shown();
    prepare(alloc, input, site, state, ladder)?;
    Ok(serve(site, state, turns))
}

/// Serves the store of a selection, until nothing more comes or so many events were taken.
///
/// With a ladder the input is read to its end, at most 1,048,576 bytes, and its channel is declared before the first event. A
/// fault says that no event was waited for; from the first event on the loop says how it ended.
pub fn serve_store<I: Source, S: Site>(
    alloc: Global,
    input: &mut I,
    site: &mut S,
    selection: Selection,
    ladder: bool,
    turns: u64,
) -> Result<Served, StoreFault>
    // No other folder and no other port is chosen.
    ensures chosen { IsChosen result selection (S.Disk.seen.view site.old) (S.Disk.seen.view site.new) }
    ensures run { IfOk result (λ end. HasRun S.Disk.seen ladder (I.left input.old) (I.left input.new) turns site.old site.new end) }
    ensures why { IfErr result (λ why. WhyUnready S.Disk.seen ladder (end_of I.left I.faults input.old)
        (end_of I.left I.faults input.new) site.old site.new why) }
    ensures counts { IfOk result CountsNone }
    // However it ends, on a disk that tells its contents: where each image that a crash might have left was one store, what a crash may leave
    // at any moment since the call began is a store whose log begins with that one, and holds what the call had shown by then.
    ensures any_moment { Lasts S.Disk.seen site.old site.new }
    // Files that are no store aren't written, whatever the answer.
    ensures spared { Spared S.Disk.seen site.old site.new }
    ensures counted { I.faults input.old ≤ I.faults input.new }
{
    bodies_have_one_log();
    stores_have_one_reading();
    let mut state = open_state(alloc, site, selection)?;
    serve_state(alloc, input, site, &mut state, ladder, turns)
}
