//! The loop.
ghost use Rattle.std.specs.Prelude.{◌≡◌, ◌≢◌, ◌↔◌, ◌⊎◌, ◌∷◌, ◌++◌, [], ℕ, true, Some, IfSome, IfNone, IsSome, OnOk, OnErr, is_some, length, ◌<◌, ◌≤◌, slice_index};
ghost use Rattle.sm_site.specs.Meanings.Deal.{Over};
ghost use Rattle.sm_site.specs.Clauses.{Rose, Adds};
ghost use Rattle.sm_serve.specs.declared.live.Live.{Live};
ghost use Rattle.sm_serve.specs.Connections.{is_among};
ghost use Rattle.sm_serve.specs.Standing.{History, StandsForSome};
ghost use Rattle.sm_serve.specs.Steps.{IsLiveOn};
ghost use Rattle.sm_serve.specs.Resting.{IsNewborn};
ghost use Rattle.sm_serve.specs.Serving.{TurnsBy, Serves, Known, CountsNone, numbers_of, Forgets, MayHandle, Handles};
ghost use Rattle.sm_serve.specs.Serving.{Served as HasServed, taken_by, HasTaken};

use crate::item::starve;
use crate::outcome::{Served, Turn};
use crate::piece::take_piece;
use crate::shown::crashes_hold_what_was_shown;
use crate::still::Still;
use crate::tell::tell;
use crate::{Live, State, TOO_MANY};
use sm_model::NoMemory;
use sm_origin::law::fewer_images_stand;
use sm_site::{Event, LinkError, Site};

// The place of a connection.
fn find(lives: &[Live], number: u64) -> Option<usize>
    ensures found { IfSome result (λ i. (i < length lives.now) × (slice_index (numbers_of lives.now) i ≡ number)) }
    ensures missing { IfNone result ((k : ℕ) → k < length lives.now → slice_index (numbers_of lives.now) k ≢ number) }
{
    for (i, live) in lives.iter().enumerate() {
        if live.number == number {
            return Some(i);
        }
    }
    None
}

// Takes a piece. That of a connection that isn't live is passed over.
fn take<S: Site>(site: &mut S, state: &mut State, number: u64, piece: &[u8])
    requires stands { StandsForSome S.Disk.seen state.old.origin site.old }
    requires live { is_among number (numbers_of state.old.lives.items) ≡ true → IsLiveOn S.Disk.seen number site.old }
    ensures { Handles S.Disk.seen (Event.Piece number piece.now) state.old state.new site.old site.new }
{
    match find(&state.lives, number) {
        Some(i) => {
            let still = take_piece(
                state.alloc,
                site,
                &mut state.origin,
                &mut state.lives[i],
                piece,
            );
            match still {
                Still::Open => {}
                Still::Closed => {
                    state.lives.remove(i);
                }
            }
        }
        None => {}
    }
}

// Takes a connection in, or refuses it where 64 are live.
fn open<S: Site>(site: &mut S, state: &mut State, number: u64)
    requires stands { StandsForSome S.Disk.seen state.old.origin site.old }
    requires live { IsLiveOn S.Disk.seen number site.old }
    ensures { Handles S.Disk.seen (Event.Opened number) state.old state.new site.old site.new }
{
    if state.lives.len() >= 64 {
        tell(site, number, TOO_MANY, true);
        return;
    }
    match admit(state, number) {
        Ok(()) => {}
        Err(NoMemory) => {
            starve(site, number);
        }
    }
}

// Puts a new connection into the list.
fn admit(state: &mut State, number: u64) -> Result<(), NoMemory>
    ensures admitted { OnOk result ((new : Live) × IsNewborn number new × (state.new.lives.items ≡ state.old.lives.items ++ new ∷ [])) }
    ensures refused { OnErr result (state.new.lives.items ≡ state.old.lives.items) }
    ensures origin { state.new.origin ≡ state.old.origin }
{
    let live = Live::new(state.alloc, number)?;
    state.lives.push(live)?;
    Ok(())
}

// Forgets a connection that the peer closed.
fn forget(state: &mut State, number: u64)
    ensures goes_on { (n : ℕ) → n ≡ number → Forgets n state.old state.new }
{
    match find(&state.lives, number) {
        Some(i) => {
            state.lives.remove(i);
        }
        None => {}
    }
}

// Handles an event that was taken.
fn handle<S: Site>(site: &mut S, state: &mut State, event: Event) -> Turn
    requires stands { StandsForSome S.Disk.seen state.old.origin site.old }
    requires may { MayHandle event state.old.lives.items (S.Disk.seen.view site.old).transcript }
    ensures handles { Handles S.Disk.seen event state.old state.new site.old site.new }
    ensures ended { result ≡ Turn.Ended ↔ event ≡ Event.Ended }
    ensures still { event ≡ Event.Ended → site.new ≡ site.old }
    ensures no_fault { result ≢ Turn.LinkFault }
    ensures no_want { result ≢ Turn.NoMemory }
{
    match event {
        Event::Opened(number) => {
            open(site, state, number);
            Turn::Went
        }
        Event::Piece(number, piece) => {
            take(site, state, number, piece.as_slice());
            Turn::Went
        }
        Event::Closed(number) => {
            forget(state, number);
            Turn::Went
        }
        Event::Ended => Turn::Ended,
    }
}

/// Takes one event, handles all acts that it completes, and sends their replies in order. At `LinkFault` and `NoMemory`
/// no event was taken. A failed send closes its connection, and the loop goes on.
pub fn turn<S: Site>(site: &mut S, state: &mut State) -> Turn
    requires stands { StandsForSome S.Disk.seen state.old.origin site.old }
    requires known { Known S.Disk.seen state.old site.old }
    // Wherever a run had come, it goes on: from the same machine at the start, over the entries since, and what a crash may leave at
    // each moment since fits it. What it took is what came next in the script, where one is told.
    ensures runs { (h : History) → Serves S.Disk.seen h state.old site.old
        → (turns : TurnsBy S.Disk.seen h (taken_by result) (S.Disk.seen.view site.old).script state.new site.new)
        × HasTaken result turns.deals }
    ensures stands { StandsForSome S.Disk.seen state.new.origin site.new }
    ensures told { is_some (S.Disk.seen.view site.new).transcript ≡ is_some (S.Disk.seen.view site.old).transcript }
    // Exactly where the event says so; whether it does is told by the transcript.
    ensures ended { result ≡ Turn.Ended → Adds Over (S.Link.seen.view site.old) (S.Link.seen.view site.new) }
    ensures over { IsSome (S.Disk.seen.view site.old).transcript
        → Adds Over (S.Link.seen.view site.old) (S.Link.seen.view site.new) → result ≡ Turn.Ended }
    ensures link_faults { (S.Disk.seen.view site.old).link_faults ≤ (S.Disk.seen.view site.new).link_faults }
    ensures link_fault { result ≡ Turn.LinkFault → Rose (S.Disk.seen.view site.old).link_faults (S.Disk.seen.view site.new).link_faults }
    ensures chosen { (S.Disk.seen.view site.new).chosen ≡ (S.Disk.seen.view site.old).chosen }
    ensures none_taken { (result ≡ Turn.LinkFault) ⊎ (result ≡ Turn.NoMemory)
        → (S.Disk.seen.view site.new).transcript ≡ (S.Disk.seen.view site.old).transcript }
{
    fewer_images_stand::<S>();
    match site.next() {
        Ok(event) => handle(site, state, event),
        Err(LinkError::Failed) => Turn::LinkFault,
        Err(LinkError::NoMemory) => Turn::NoMemory,
    }
}

/// Serves until nothing more comes, or so many events were taken.
pub fn serve<S: Site>(site: &mut S, state: &mut State, turns: u64) -> Served
    requires stands { StandsForSome S.Disk.seen state.old.origin site.old }
    requires known { Known S.Disk.seen state.old site.old }
    ensures runs { (h : History) → Serves S.Disk.seen h state.old site.old
        → HasServed S.Disk.seen h result turns state.new site.new }
    ensures goes_on { (h : History) → Serves S.Disk.seen h state.old site.old → (n : ℕ)
        × TurnsBy S.Disk.seen h n (S.Disk.seen.view site.old).script state.new site.new }
    ensures stands { StandsForSome S.Disk.seen state.new.origin site.new }
    ensures counts { CountsNone result }
    ensures told { is_some (S.Disk.seen.view site.new).transcript ≡ is_some (S.Disk.seen.view site.old).transcript }
    ensures link_faults { (S.Disk.seen.view site.old).link_faults ≤ (S.Disk.seen.view site.new).link_faults }
    ensures chosen { (S.Disk.seen.view site.new).chosen ≡ (S.Disk.seen.view site.old).chosen }
    ensures link_fault { result ≡ Served.LinkFault → Rose (S.Disk.seen.view site.old).link_faults (S.Disk.seen.view site.new).link_faults }
{
    crashes_hold_what_was_shown();
    for taken in 0..turns {
        match turn(site, state) {
            Turn::Went => {}
            Turn::Ended => return Served::Done {
                turns: taken,
                behind: 0,
                short: 0,
            },
            Turn::LinkFault => return Served::LinkFault,
            Turn::NoMemory => return Served::NoMemory,
        }
    }
    Served::Done {
        turns,
        behind: 0,
        short: 0,
    }
}
