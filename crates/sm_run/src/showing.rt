//! The loop beside player threads.
ghost use Rattle.std.specs.Prelude.{◌≡◌, ◌≤◌, ◌<◌, ◌⊎◌, ◌+◌, ℕ, All, map, vec_len, None, Some, IfOk, IfErr, IsErrOf, OnErr, OnOk, IsSome, is_some, length};
ghost use Rattle.sm_site.specs.Clauses.{Rose};
ghost use Rattle.sm_origin.specs.Machine.{Machine};
ghost use Rattle.sm_serve.specs.Standing.{History, StandsOn};
ghost use Rattle.sm_serve.specs.Serving.{Known, Serves, Served as HasServed};
ghost use Rattle.sm_serve.specs.declared.outcome.Served.TheVariants as served;
ghost use Rattle.sm_shelf.specs.Shelf.{Belongs, bare};
ghost use Rattle.sm_show.specs.Marks.{HasShown};
ghost use Rattle.sm_show.specs.Recalling.{Recalls};
ghost use Rattle.sm_players.specs.declared.spawner.SpawnError.TheVariants.{Failed};
ghost use Rattle.sm_players.specs.Wiring.{rewired};
ghost use Rattle.sm_run.specs.Staff.{Starts, IsStaffed, IsUnread, IsUnstaffed, staff_of};

use crate::staffing::{Running, start_all};
use sm_model::NoMemory;
use sm_players::{Finished, SpawnError, Spawner, Wiring};
use sm_serve::{Served, State};
use sm_shelf::{Readers, ShelfEnd, ShelfWriter, make};
use sm_show::{catch_up, serve_shown};
use sm_site::Site;
use std::alloc::Global;
use std::sync::Wait;

/// How the loop ended, and how its players did; and what is left of the shelf that it published on, which these read.
#[derive(Drop)]
pub struct Ended {
    pub served: Served,
    pub finished: Finished,
    pub shelf: ShelfEnd,
}

// Starts the players, once they have something to show, and serves beside them.
fn serve_beside<R: Wait, S: Site, P: Spawner>(
    rt: &R,
    site: &mut S,
    state: &mut State,
    spawner: &mut P,
    writer: &mut ShelfWriter,
    readers: Readers,
    running: &mut Running<P>,
    wiring: Wiring,
    turns: u64,
) -> Result<Served, SpawnError>
    requires stands { (m : Machine) × StandsOn S.Disk.seen m state.old.origin site.old }
    requires known { Known S.Disk.seen state.old site.old }
    requires port { wiring.port ≤ 65534 }
    requires some { 0 < length readers }
    requires unread { All (IsUnread writer.old.table) readers }
    ensures runs { IfOk result (λ end. (h : History) → Serves S.Disk.seen h state.old site.old
        → HasServed S.Disk.seen h end turns state.new site.new) }
    ensures shown { IfOk result (λ end. (h : History) → Serves S.Disk.seen h state.old site.old
        → IsSome (S.Disk.seen.view site.old).contents → Belongs h.point.machine.log writer.old
        → (run : HasServed S.Disk.seen h end turns state.new site.new) × HasShown h end run.later writer.old writer.new) }
    ensures link_faults { (S.Disk.seen.view site.old).link_faults ≤ (S.Disk.seen.view site.new).link_faults }
    ensures link_fault { IfOk result (λ end. end ≡ served.LinkFault → Rose (S.Disk.seen.view site.old).link_faults (S.Disk.seen.view site.new).link_faults) }
    ensures site_chosen { (S.Disk.seen.view site.new).chosen ≡ (S.Disk.seen.view site.old).chosen }
    ensures started { OnOk result (P.started spawner.new ≡ P.started spawner.old + length readers) }
    ensures wires { OnOk result (P.chosen spawner.new ≡ rewired (P.chosen spawner.old) (Some wiring)) }
    ensures asked { OnErr result ((P.chosen spawner.new ≡ rewired (P.chosen spawner.old) (Some wiring))
        ⊎ (P.chosen spawner.new ≡ rewired (P.chosen spawner.old) None)) }
    ensures few { OnErr result (P.started spawner.new < P.started spawner.old + length readers) }
    ensures no_fewer { P.started spawner.old ≤ P.started spawner.new }
    ensures table { writer.new.table ≡ writer.old.table }
    ensures starts { Starts writer.old.table (P.limit spawner.old) (P.started spawner.old) (P.started spawner.new)
        (map (λ h. h.promise) running.old.items) (map (λ h. h.promise) running.new.items) }
    ensures count { vec_len running.new + P.started spawner.old ≡ vec_len running.old + P.started spawner.new }
    ensures running { vec_len running.new ≤ vec_len running.old + length readers }
    ensures failed { IsErrOf result Failed → Rose (P.spawn_faults spawner.old) (P.spawn_faults spawner.new) }
    ensures later { P.spawn_faults spawner.old ≤ P.spawn_faults spawner.new }
    ensures idle { OnErr result (Recalls S.Disk.seen state.old site.old site.new) }
{
    spawner.select(wiring)?;
    let _ = catch_up(rt, site, state, writer);
    start_all(spawner, readers, running)?;
    Ok(serve_shown(rt, site, state, writer, turns))
}

/// Serves a store that is ready, beside so many players: they are started before the first event, once the shelf was brought up to the log, and asked
/// to end and joined behind the last one. Where not all of them start, those that run are joined, and no event is waited for.
pub fn show<R: Wait, S: Site, P: Spawner>(
    rt: &R,
    alloc: Global,
    site: &mut S,
    state: &mut State,
    spawner: &mut P,
    wiring: Wiring,
    turns: u64,
) -> Result<Ended, SpawnError>
    requires stands { (m : Machine) × StandsOn S.Disk.seen m state.old.origin site.old }
    requires known { Known S.Disk.seen state.old site.old }
    requires port { wiring.port ≤ 65534 }
    requires players { (0 < wiring.players) × (wiring.players ≤ 16) }
    ensures runs { IfOk result (λ e. (h : History) → Serves S.Disk.seen h state.old site.old
        → HasServed S.Disk.seen h e.served turns state.new site.new) }
    ensures shown { IfOk result (λ e. (h : History) → Serves S.Disk.seen h state.old site.old
        → IsSome (S.Disk.seen.view site.old).contents
        → (run : HasServed S.Disk.seen h e.served turns state.new site.new) × HasShown h e.served run.later (bare e.shelf.table) e.shelf) }
    ensures link_fault { IfOk result (λ e. e.served ≡ served.LinkFault → Rose (S.Disk.seen.view site.old).link_faults (S.Disk.seen.view site.new).link_faults) }
    ensures staffed { IfOk result (λ e. IsStaffed e.shelf.table wiring (staff_of P.spawn_faults P.started P.limit P.chosen P.ended spawner.old)
        (staff_of P.spawn_faults P.started P.limit P.chosen P.ended spawner.new) e.finished) }
    ensures why { IfErr result (λ why. IsUnstaffed wiring (staff_of P.spawn_faults P.started P.limit P.chosen P.ended spawner.old)
        (staff_of P.spawn_faults P.started P.limit P.chosen P.ended spawner.new) why) }
    ensures idle { OnErr result (Recalls S.Disk.seen state.old site.old site.new) }
    ensures site_chosen { (S.Disk.seen.view site.new).chosen ≡ (S.Disk.seen.view site.old).chosen }
{
    let Ok(room) = Vec::with_capacity(alloc, wiring.players as usize) else {
        return Err(SpawnError::NoMemory);
    };
    let Ok((writer, readers)) = make(rt, alloc, wiring.players) else {
        return Err(SpawnError::NoMemory);
    };
    let mut writer = writer;
    let mut running = Vec::new(alloc);
    let ended = serve_beside(
        rt,
        site,
        state,
        spawner,
        &mut writer,
        readers,
        &mut running,
        wiring,
        turns,
    );
    let finished = spawner.finish(running, room);
    let shelf = writer.end(rt);
    let served = ended?;
    Ok(Ended {
        served,
        finished,
        shelf,
    })
}
