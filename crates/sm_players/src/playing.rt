//! The player.
ghost use Rattle.std.specs.Prelude.{◌≡◌, ◌≤◌, ℕ, List, Option, IfSome, true, false, not};
ghost use Rattle.sm_players.specs.Asking.{Asking};
ghost use Rattle.sm_site.specs.Meanings.{Deal, IsLive};
ghost use Rattle.sm_site.specs.Meanings.Deal.{Began, Came};
ghost use Rattle.sm_site.specs.Event.{deal_of};
ghost use Rattle.sm_site.specs.Clauses.{Rose};
ghost use Rattle.sm_log.specs.Digests.{Extends};
ghost use Rattle.sm_players.specs.Telling.{Goes, LeavesWire, Tells};
ghost use Rattle.sm_players.specs.Taking.{Standing, standing};
ghost use Rattle.sm_players.specs.Open.{Known, AreKnown, AreOpen, IsApart, LeavesOpen, MayHandle};
ghost use Rattle.sm_players.specs.Playing.{IsCrowded, is_over, HasPlayed};
ghost use Rattle.sm_players.specs.Given.{TurnGives};
ghost use Rattle.sm_players.specs.declared.telling.Outcome.{Outcome as Sent};

use crate::forward::Forward;
use crate::gate::Gate;
use crate::live::{Live, admit, find, forget};
use crate::parts::{Counts, take_piece};
use crate::played::Played;
use crate::replying::refuse;
use crate::telling::{starve, tell};
use crate::wire::Wire;
use sm_model::{Cause, NoMemory};
use sm_shelf::ShelfReader;
use sm_site::{Event, LinkError};
use std::alloc::Global;

// The most connections that a player has at once.
const MOST: usize = 16;

// Refuses a connection too many.
fn crowd<W: Wire>(alloc: Global, wire: &mut W, number: u64)
    requires live { IfSome (W.seen.view wire.old).transcript (IsLive number) }
    ensures goes { (told : List Deal) × Goes (W.seen.view wire.old).transcript (W.seen.view wire.new).transcript told
        × ((text : List ℕ) × (result : Sent) × IsCrowded text × Tells number text true told result) }
    ensures leaves { LeavesWire number false (W.seen.view wire.old) (W.seen.view wire.new) }
{
    match refuse(alloc, Cause::TooManyConnections) {
        Ok(reply) => {
            let (head, tail) = reply.text.parts();
            tell(wire, number, head, tail, true);
        }
        Err(NoMemory) => {
            starve(wire, number);
        }
    }
}

// Takes a connection in, or refuses it where 16 are live.
fn begin<W: Wire>(alloc: Global, wire: &mut W, lives: &mut Vec<Live>, number: u64)
    requires may { IfSome (W.seen.view wire.old).transcript (λ items. IsLive number items × IsApart number lives.old.items × AreOpen items lives.old.items) }
    ensures turns { (ks : List Known) (p : Standing) (was : Option (List Asking)) → AreKnown ks lives.old.items
        → TurnGives (Began number) (W.seen.view wire.old).transcript (W.seen.view wire.new).transcript was was ks p lives.new.items p }
    ensures leaves { LeavesOpen lives.new.items (W.seen.view wire.old) (W.seen.view wire.new) }
{
    if lives.len() >= MOST {
        crowd(alloc, wire, number);
        return;
    }
    match admit(alloc, lives, number) {
        Ok(()) => {}
        Err(NoMemory) => {
            starve(wire, number);
        }
    }
}

// Takes a piece. That of a connection that isn't live is passed over.
fn take<W: Wire, F: Forward, G: Gate>(
    alloc: Global,
    wire: &mut W,
    forward: &mut F,
    gate: &mut G,
    reader: &mut ShelfReader,
    counts: &mut Counts,
    lives: &mut Vec<Live>,
    number: u64,
    piece: &[u8],
)
    requires live { IfSome (W.seen.view wire.old).transcript (λ items. AreOpen items lives.old.items) }
    ensures turns { (ks : List Known) → AreKnown ks lives.old.items
        → TurnGives (Came number piece.now) (W.seen.view wire.old).transcript (W.seen.view wire.new).transcript (F.asked forward.old) (F.asked forward.new) ks
        (standing reader.old.seen counts.old.answered) lives.new.items (standing reader.new.seen counts.new.answered) }
    ensures leaves { LeavesOpen lives.new.items (W.seen.view wire.old) (W.seen.view wire.new) }
    ensures later { F.forward_faults forward.old ≤ F.forward_faults forward.new }
{
    match find(lives, number) {
        Some(i) => {
            let open = take_piece(
                alloc,
                wire,
                forward,
                gate,
                reader,
                counts,
                &mut lives[i],
                piece,
            );
            if !open {
                lives.remove(i);
            }
        }
        None => {}
    }
}

// Handles an event that was taken. Says whether more may come.
fn handle<W: Wire, F: Forward, G: Gate>(
    alloc: Global,
    wire: &mut W,
    forward: &mut F,
    gate: &mut G,
    reader: &mut ShelfReader,
    counts: &mut Counts,
    lives: &mut Vec<Live>,
    event: Event,
) -> bool
    requires may { IfSome (W.seen.view wire.old).transcript (MayHandle event lives.old.items) }
    ensures turns { (ks : List Known) → AreKnown ks lives.old.items
        → TurnGives (deal_of event) (W.seen.view wire.old).transcript (W.seen.view wire.new).transcript (F.asked forward.old) (F.asked forward.new) ks
        (standing reader.old.seen counts.old.answered) lives.new.items (standing reader.new.seen counts.new.answered) }
    ensures over { result ≡ not (is_over (deal_of event)) }
    ensures leaves { LeavesOpen lives.new.items (W.seen.view wire.old) (W.seen.view wire.new) }
    ensures later { F.forward_faults forward.old ≤ F.forward_faults forward.new }
{
    match event {
        Event::Opened(number) => {
            begin(alloc, wire, lives, number);
            true
        }
        Event::Piece(number, piece) => {
            take(
                alloc,
                wire,
                forward,
                gate,
                reader,
                counts,
                lives,
                number,
                piece.as_slice(),
            );
            true
        }
        Event::Closed(number) => {
            forget(lives, number);
            true
        }
        Event::Ended => false,
    }
}

/// Answers the requests of the connections that a wire opens, until nothing more comes or so many events were taken: those for a manifest and
/// for fragments from what the reader is shown, and what isn't published any more from the loop.
pub fn player<W: Wire, F: Forward, G: Gate>(
    alloc: Global,
    wire: &mut W,
    forward: &mut F,
    gate: &mut G,
    reader: &mut ShelfReader,
    turns: u64,
) -> Played
    // From no live connection on, event for event: what it told on its wire, what it asked the loop, and what its reader saw.
    ensures plays { HasPlayed reader.old.seen reader.new.seen (W.seen.view wire.old).transcript (W.seen.view wire.new).transcript (F.asked forward.old)
        (F.asked forward.new) turns result }
    // What it has seen goes on from what its reader had seen before.
    ensures seen { Extends reader.new.seen reader.old.seen }
    ensures link_fault { result ≡ Played.LinkFault → Rose (W.seen.view wire.old).link_faults (W.seen.view wire.new).link_faults }
    ensures link_faults { (W.seen.view wire.old).link_faults ≤ (W.seen.view wire.new).link_faults }
    ensures forward_faults { F.forward_faults forward.old ≤ F.forward_faults forward.new }
{
    let mut lives = Vec::new(alloc);
    let mut counts = Counts {
        asked: 0,
        answered: 0,
    };
    for _ in 0..turns {
        match wire.next() {
            Ok(event) => if !handle(
                alloc,
                wire,
                forward,
                gate,
                reader,
                &mut counts,
                &mut lives,
                event,
            ) {
                return Played::Done {
                    answered: counts.answered,
                };
            },
            Err(LinkError::Failed) => return Played::LinkFault,
            Err(LinkError::NoMemory) => return Played::NoMemory,
        }
    }
    Played::Done {
        answered: counts.answered,
    }
}
