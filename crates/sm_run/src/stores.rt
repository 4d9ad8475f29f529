//! A store that is served beside player threads.
ghost use Rattle.std.specs.Prelude.{◌≡◌, ◌≤◌, ◌<◌, IfOk, IfErr, OnErr};
ghost use Rattle.sm_origin.specs.Machine.{Machine};
ghost use Rattle.sm_serve.specs.Standing.{History, StandsOn};
ghost use Rattle.sm_serve.specs.Serving.{Begins, Serves};
ghost use Rattle.sm_command.specs.Lasting.{Lasts, NoFewer, Spared};
ghost use Rattle.sm_command.specs.Serving.{RunLasts};
ghost use Rattle.sm_run.specs.Staff.{IsStaffed, staff_of};
ghost use Rattle.sm_run.specs.Showing.{IsSelectedWith, RunsShown, ShownFrom, StopsShort, WhyUnshown};
ghost use Rattle.sm_ends.specs.Ended.{end_of};

use crate::fault::ShowFault;
use crate::showing::{Ended, show};
use sm_archive::bodies_have_one_log;
use sm_command::{open_state, prepare};
use sm_ends::Source;
use sm_players::{Spawner, Wiring};
use sm_seglog::law::stores_have_one_reading;
use sm_serve::State;
use sm_serve::shown::crashes_hold_what_was_shown;
use sm_site::{Selection, Site};
use std::alloc::Global;
use std::sync::Wait;

// Serves from a state that was just opened.
fn show_state<R: Wait, I: Source, S: Site, P: Spawner>(
    rt: &R,
    alloc: Global,
    input: &mut I,
    site: &mut S,
    state: &mut State,
    spawner: &mut P,
    ladder: bool,
    wiring: Wiring,
    turns: u64,
) -> Result<Ended, ShowFault>
    requires begins { Begins S.Disk.seen state.old site.old }
    requires stands { (m : Machine) × StandsOn S.Disk.seen m state.old.origin site.old }
    requires port { wiring.port ≤ 65534 }
    requires players { (0 < wiring.players) × (wiring.players ≤ 16) }
    ensures run { IfOk result (λ e. ShownFrom S.Disk.seen e.shelf ladder (I.left input.old)
        (I.left input.new) turns state.old site.old site.new e.served) }
    ensures staffed { IfOk result (λ e. IsStaffed e.shelf.table wiring (staff_of P.spawn_faults P.started P.limit P.chosen P.ended spawner.old)
        (staff_of P.spawn_faults P.started P.limit P.chosen P.ended spawner.new) e.finished) }
    ensures why { IfErr result (λ why. StopsShort S.Disk.seen ladder wiring (end_of I.left I.faults input.old) (end_of I.left I.faults input.new)
        (staff_of P.spawn_faults P.started P.limit P.chosen P.ended spawner.old)
        (staff_of P.spawn_faults P.started P.limit P.chosen P.ended spawner.new) state.old site.old site.new why) }
    ensures silent { OnErr result ((S.Disk.seen.view site.new).transcript ≡ (S.Disk.seen.view site.old).transcript) }
    ensures no_fewer { OnErr result (NoFewer (S.Disk.seen.view site.old) (S.Disk.seen.view site.new)) }
    ensures counted { I.faults input.old ≤ I.faults input.new }
    ensures chosen { (S.Disk.seen.view site.new).chosen ≡ (S.Disk.seen.view site.old).chosen }
    ensures lasts { (h : History) → Serves S.Disk.seen h state.old site.old → RunLasts S.Disk.seen h site.new }
{
    crashes_hold_what_was_shown();
    match prepare(alloc, input, site, state, ladder) {
        Ok(()) => match show(rt, alloc, site, state, spawner, wiring, turns) {
            Ok(ended) => Ok(ended),
            Err(fault) => Err(ShowFault::Spawn(fault)),
        },
        Err(fault) => Err(ShowFault::Store(fault)),
    }
}

/// Serves the store of a selection beside players, until nothing more comes or so many events were taken.
///
/// With a ladder the input is read to its end, at most 1,048,576 bytes, and its channel is declared before the players start. A fault says that
/// no event was waited for.
pub fn show_store<R: Wait, I: Source, S: Site, P: Spawner>(
    rt: &R,
    alloc: Global,
    input: &mut I,
    site: &mut S,
    spawner: &mut P,
    selection: Selection,
    ladder: bool,
    wiring: Wiring,
    turns: u64,
) -> Result<Ended, ShowFault>
    requires port { wiring.port ≤ 65534 }
    requires players { (0 < wiring.players) × (wiring.players ≤ 16) }
    ensures chosen { IsSelectedWith result selection (S.Disk.seen.view site.old) (S.Disk.seen.view site.new) }
    ensures run { IfOk result (λ e. RunsShown S.Disk.seen e.shelf ladder (I.left input.old) (I.left input.new) turns site.old site.new e.served) }
    ensures staffed { IfOk result (λ e. IsStaffed e.shelf.table wiring (staff_of P.spawn_faults P.started P.limit P.chosen P.ended spawner.old)
        (staff_of P.spawn_faults P.started P.limit P.chosen P.ended spawner.new) e.finished) }
    ensures why { IfErr result (λ why. WhyUnshown S.Disk.seen ladder wiring (end_of I.left I.faults input.old) (end_of I.left I.faults input.new)
        (staff_of P.spawn_faults P.started P.limit P.chosen P.ended spawner.old)
        (staff_of P.spawn_faults P.started P.limit P.chosen P.ended spawner.new) site.old site.new why) }
    ensures counted { I.faults input.old ≤ I.faults input.new }
    // However it ends, what a crash may leave at any moment since the call began is the store that was there, gone on, and holds what the
    // call had shown by then.
    ensures any_moment { Lasts S.Disk.seen site.old site.new }
    // Files that are no store aren't written, whatever the answer.
    ensures spared { Spared S.Disk.seen site.old site.new }
{
    bodies_have_one_log();
    stores_have_one_reading();
    match open_state(alloc, site, selection) {
        Ok(mut state) => show_state(
            rt, alloc, input, site, &mut state, spawner, ladder, wiring, turns,
        ),
        Err(fault) => Err(ShowFault::Store(fault)),
    }
}
