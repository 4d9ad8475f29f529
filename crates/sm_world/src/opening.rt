//! Asking an origin, which is opened first where it isn't.
ghost use Rattle.std.specs.Prelude.{◌≡◌, ◌≢◌, ◌≤◌, ◌<◌, ◌^◌, ◌++◌, ℕ, List, [], None, Some, IfOk, IfSome, IsErrOf, IsTrue, OnErr, false};
ghost use Rattle.sm_archive.specs.declared.opened.OpenFault.TheVariants as open_fault;
ghost use Rattle.sm_serve.specs.declared.state.State.{State as Kept};
ghost use Rattle.sm_serve.specs.Connections.{is_among};
ghost use Rattle.sm_serve.specs.Serving.{numbers_of};
ghost use Rattle.sm_site.specs.declared.event.Event.{Event};
ghost use Rattle.sm_site.specs.Clauses.{Both, Rose};
ghost use Rattle.sm_site.specs.Meanings.{sent_on, DiskAlone};
ghost use Rattle.sm_site.specs.Scripts.{deals_of, is_script, numbers_after};
ghost use Rattle.sm_site.specs.Sites.{SameBut};
ghost use Rattle.sm_world.specs.Answering.{HasCause, HasSent};
ghost use Rattle.sm_world.specs.Bringing.{Brings};
ghost use Rattle.sm_world.specs.Saying.{SaysOn, TellsOn};
ghost use Rattle.sm_world.specs.Worlds.{World, Stands, IsOpen, Grows, GoesOn};

use crate::Acted;
use crate::asking::{next_connection, script_of};
use sm_archive::{Limits, OpenFault, bodies_have_one_log};
use sm_origin::law::fewer_images_stand;
use sm_seglog::law::stores_have_one_reading;
use sm_serve::{Served, State, serve};
use sm_site::{Crashing, Script};
use std::alloc::{AllocError, Global};

// What the loop keeps behind a request, and what came of that.
pub(crate) struct Asked {
    pub state: Option<State>,
    pub acted: Acted,
}

// Opens a store that isn't open.
fn opened<S: Crashing>(
    alloc: Global,
    site: &mut S,
    state: Option<State>,
    limits: Limits,
) -> Result<State, OpenFault>
    requires bytes { limits.store_bytes ≤ 2 ^ 62 }
    requires entries { limits.entries < 2 ^ 32 }
    ensures opened { IfOk result (λ new. (w : World) → Stands S.Disk.seen w state site.old → IsOpen S.Disk.seen w new site.new) }
    ensures refused { OnErr result ((w : World) → Stands S.Disk.seen w state site.old → Stands S.Disk.seen w None site.new) }
    ensures fault { IsErrOf result open_fault.DiskFault → Rose (S.Disk.seen.view site.old).disk_faults (S.Disk.seen.view site.new).disk_faults }
    ensures closed { OnErr result (state ≡ None) }
    // An image that has a log is a store.
    ensures never { (w : World) → Stands S.Disk.seen w state site.old → (at : ℕ) → IsErrOf result (open_fault.NotAStore at) → ⊥ }
    ensures disk_alone { DiskAlone (S.Disk.seen.view site.old) (S.Disk.seen.view site.new) }
{
    bodies_have_one_log();
    stores_have_one_reading();
    match state {
        Some(state) => Ok(state),
        None => match State::start(alloc, site, limits) {
            Ok(state) => Ok(state),
            Err(fault) => Err(fault),
        },
    }
}

// Puts events behind the script, which open this connection. None where memory wants.
fn put<S: Crashing>(site: &mut S, conn: u64, script: Script) -> Option<u64>
    requires fits { IfSome (S.Disk.seen.view site.old).script (λ deals. IsTrue (is_script (numbers_after (S.Link.numbers site.old) deals) script)) }
    ensures conn { IfSome result (λ n. n ≡ conn) }
    ensures added { IfSome result (λ n. Both (S.Disk.seen.view site.old).script (S.Disk.seen.view site.new).script (λ was now. now ≡ was ++ deals_of script)) }
    ensures stays { (w : World) (state : Kept) → IsOpen S.Disk.seen w state site.old → IsOpen S.Disk.seen w state site.new }
    ensures view { SameBut (S.Disk.seen.view site.old) (S.Disk.seen.view site.new) }
{
    fewer_images_stand::<S>();
    match site.extend(script) {
        Ok(()) => Some(conn),
        Err(AllocError) => None,
    }
}

// Whether a connection is live.
fn is_live(state: &State, conn: u64) -> bool
    ensures { result ≡ is_among conn (numbers_of state.now.lives.items) }
{
    for live in &state.lives {
        if live.number == conn {
            return true;
        }
    }
    false
}

// Whether a connection isn't live and nothing went out on it. Each that is new is unused; so is none where memory wants.
fn is_unused<S: Crashing>(site: &S, state: &State, conn: u64) -> bool
    ensures live { IsTrue result → is_among conn (numbers_of state.now.lives.items) ≡ false }
    ensures sent { IsTrue result → IfSome (S.Disk.seen.view site.now).transcript (λ items. sent_on conn items ≡ []) }
{
    if is_live(state, conn) {
        return false;
    }
    match site.sent(conn) {
        Ok(piece) => piece.as_slice().is_empty(),
        Err(AllocError) => false,
    }
}

// Puts a request, as an unused connection of its own, behind the script. None where memory wants.
fn bring<S: Crashing>(alloc: Global, site: &mut S, state: &State, request: &[u8]) -> Option<u64>
    ensures first { IfSome result (λ n. 2 ^ 63 ≤ n) }
    ensures above { IfSome result (λ n. IfSome (S.Disk.seen.view site.old).script (λ deals. numbers_after (S.Link.numbers site.old) deals ≤ n)) }
    ensures live { IfSome result (λ n. is_among n (numbers_of state.now.lives.items) ≡ false) }
    ensures sent { IfSome result (λ n. IfSome (S.Disk.seen.view site.old).transcript (λ items. sent_on n items ≡ [])) }
    ensures brings { IfSome result (λ n. (events : List Event) × Brings n request.now events
        × Both (S.Disk.seen.view site.old).script (S.Disk.seen.view site.new).script (λ was now. now ≡ was ++ deals_of events)) }
    ensures stays { (w : World) (state : Kept) → IsOpen S.Disk.seen w state site.old → IsOpen S.Disk.seen w state site.new }
    ensures view { SameBut (S.Disk.seen.view site.old) (S.Disk.seen.view site.new) }
{
    match next_connection(site) {
        None => None,
        Some(conn) => {
            if !is_unused(site, state, conn) {
                return None;
            }
            match script_of(alloc, conn, request) {
                Ok(script) => put(site, conn, script),
                Err(AllocError) => None,
            }
        }
    }
}

fn sent_on<S: Crashing>(site: &S, conn: u64) -> Acted
    ensures { HasSent conn (S.Disk.seen.view site.now).transcript result }
{
    match site.sent(conn) {
        Ok(piece) => Acted::Sent(piece),
        Err(AllocError) => Acted::NoMemory,
    }
}

fn serve_request<S: Crashing>(
    alloc: Global,
    site: &mut S,
    state: &mut State,
    request: &[u8],
) -> Acted
    requires stands { (w : World) × IsOpen S.Disk.seen w state.old site.old }
    ensures goes_on { GoesOn S.Disk.seen (Some state.old) site.old (Some state.new) site.new }
    ensures says { SaysOn S.Disk.seen (Some state.old) site.old request.now result (Some state.new) site.new }
    ensures cause { HasCause S.Disk.seen.view (Some state.old) site.old (Some state.new) site.new request.now result }
    ensures tells { TellsOn (S.Disk.seen.view site.old) (S.Disk.seen.view site.new) }
    ensures opened { result ≢ Acted.Unopened }
{
    match bring(alloc, site, state, request) {
        None => Acted::NoMemory,
        Some(conn) => match serve(site, state, u64::MAX) {
            Served::Done { .. } => sent_on(site, conn),
            Served::LinkFault => Acted::Broken,
            Served::NoMemory => Acted::NoMemory,
        },
    }
}

// Opens the store where it isn't open, and serves a request on a new connection until nothing more comes.
pub(crate) fn ask<S: Crashing>(
    alloc: Global,
    site: &mut S,
    state: Option<State>,
    limits: Limits,
    request: &[u8],
) -> Asked
    requires bytes { limits.store_bytes ≤ 2 ^ 62 }
    requires entries { limits.entries < 2 ^ 32 }
    requires stands { (w : World) × Stands S.Disk.seen w state site.old }
    ensures goes_on { GoesOn S.Disk.seen state site.old result.state site.new }
    ensures says { SaysOn S.Disk.seen state site.old request.now result.acted result.state site.new }
    ensures cause { HasCause S.Disk.seen.view state site.old result.state site.new request.now result.acted }
    ensures tells { TellsOn (S.Disk.seen.view site.old) (S.Disk.seen.view site.new) }
{
    match opened(alloc, site, state, limits) {
        Ok(mut state) => {
            let acted = serve_request(alloc, site, &mut state, request);
            Asked {
                state: Some(state),
                acted,
            }
        }
        Err(OpenFault::DiskFault) => Asked {
            state: None,
            acted: Acted::Unopened,
        },
        // this never comes
        Err(OpenFault::NotAStore { .. }) => Asked {
            state: None,
            acted: Acted::Unopened,
        },
        Err(OpenFault::NoMemory) => Asked {
            state: None,
            acted: Acted::NoMemory,
        },
    }
}
