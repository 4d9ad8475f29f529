//! What a connection sent, answered.
ghost use Rattle.std.specs.Prelude.{◌≡◌, ◌++◌, List, ℕ, IfSome};
ghost use Rattle.sm_site.specs.Meanings.{Deal, IsLive};
ghost use Rattle.sm_conn.specs.Parts.{PartItem};
ghost use Rattle.sm_conn.specs.Stands.{items_of, joined, StandsFor};
ghost use Rattle.sm_log.specs.Digests.{Digest};
ghost use Rattle.sm_players.specs.Asking.{Asking, behind};
ghost use Rattle.sm_players.specs.Telling.{Goes, LeavesBoth, LeavesWire, counted};
ghost use Rattle.sm_players.specs.Replying.{IsAnswer};
ghost use Rattle.sm_players.specs.Taking.{standing, Handles, Takes, PieceGives};

use crate::forward::Forward;
use crate::gate::Gate;
use crate::live::Live;
use crate::replying::{Final, reply_for};
use crate::telling::{Outcome, is_open, starve, tell};
use crate::wire::Wire;
use sm_conn::Part;
use sm_model::NoMemory;
use sm_shelf::ShelfReader;
use std::alloc::Global;

/// How many requests were begun, and how many final replies were sent whole. Both stand still at their type's end.
#[derive(Clone, Copy, Debug, PartialEq, Eq)]
pub struct Counts {
    pub asked: u64,
    pub answered: u64,
}

impl Counts {
    // A request begins.
    fn begin(&mut self) -> u64
        ensures { self.new.answered ≡ self.old.answered }
    {
        self.asked = self.asked.saturating_add(1);
        self.asked
    }

    // A final reply was sent, whole or not.
    fn note(&mut self, outcome: Outcome)
        ensures { self.new.answered ≡ counted outcome self.old.answered }
    {
        match outcome {
            Outcome::Open | Outcome::Closed => self.answered = self.answered.saturating_add(1),
            Outcome::Failed => {}
        }
    }
}

// Sends a final reply, and counts it; or 500 where memory was wanting for it. Says whether the connection is still open.
fn send_reply<W: Wire>(
    wire: &mut W,
    counts: &mut Counts,
    number: u64,
    reply: Result<Final, NoMemory>,
) -> bool
    requires live { IfSome (W.seen.view wire.old).transcript (IsLive number) }
    // Whatever the reply answers, the items that it answers are handled.
    ensures handles { (told : List Deal) × Goes (W.seen.view wire.old).transcript (W.seen.view wire.new).transcript told
        × ((seen seen' : Digest) (items : List PartItem) (asked : List Asking) → IsAnswer seen items seen' asked reply
        → Handles number (standing seen counts.old.answered) items told asked result (standing seen' counts.new.answered)) }
    ensures leaves { LeavesWire number result (W.seen.view wire.old) (W.seen.view wire.new) }
{
    match reply {
        Ok(reply) => {
            let (head, tail) = reply.text.parts();
            let outcome = tell(wire, number, head, tail, reply.close);
            counts.note(outcome);
            is_open(outcome)
        }
        Err(NoMemory) => {
            starve(wire, number);
            false
        }
    }
}

// Answers a part. Says whether the connection is still open.
fn take_part<W: Wire, F: Forward, G: Gate>(
    alloc: Global,
    wire: &mut W,
    forward: &mut F,
    gate: &mut G,
    reader: &mut ShelfReader,
    counts: &mut Counts,
    number: u64,
    part: Part,
) -> bool
    requires live { IfSome (W.seen.view wire.old).transcript (IsLive number) }
    ensures handles { (told : List Deal) × (asked : List Asking) × Goes (W.seen.view wire.old).transcript (W.seen.view wire.new).transcript told
        × (F.asked forward.new ≡ behind (F.asked forward.old) asked)
        × Handles number (standing reader.old.seen counts.old.answered) (items_of part) told asked result (standing reader.new.seen counts.new.answered) }
    ensures leaves { LeavesBoth number result (W.seen.view wire.old) (W.seen.view wire.new) (F.forward_faults forward.old) (F.forward_faults forward.new) }
{
    if let Part::Continue = part {
        return true;
    }
    let call = counts.begin();
    gate.before(call);
    let reply = reply_for(alloc, forward, reader, part);
    let open = send_reply(wire, counts, number, reply);
    gate.after(call);
    open
}

// Answers parts, one after the other, up to one behind which the connection is closed.
fn take_parts<W: Wire, F: Forward, G: Gate>(
    alloc: Global,
    wire: &mut W,
    forward: &mut F,
    gate: &mut G,
    reader: &mut ShelfReader,
    counts: &mut Counts,
    number: u64,
    parts: Vec<Part>,
) -> bool
    requires live { IfSome (W.seen.view wire.old).transcript (IsLive number) }
    ensures takes { (told : List Deal) × (asked : List Asking) × Goes (W.seen.view wire.old).transcript (W.seen.view wire.new).transcript told
        × (F.asked forward.new ≡ behind (F.asked forward.old) asked)
        × Takes number (standing reader.old.seen counts.old.answered) (joined parts.items) told asked result (standing reader.new.seen counts.new.answered) }
    ensures leaves { LeavesBoth number result (W.seen.view wire.old) (W.seen.view wire.new) (F.forward_faults forward.old) (F.forward_faults forward.new) }
{
    for part in parts {
        if !take_part(alloc, wire, forward, gate, reader, counts, number, part) {
            return false;
        }
    }
    true
}

// Takes a piece that came on a live connection. Says whether the connection is still open.
pub(crate) fn take_piece<W: Wire, F: Forward, G: Gate>(
    alloc: Global,
    wire: &mut W,
    forward: &mut F,
    gate: &mut G,
    reader: &mut ShelfReader,
    counts: &mut Counts,
    live: &mut Live,
    piece: &[u8],
) -> bool
    requires live { IfSome (W.seen.view wire.old).transcript (IsLive live.old.number) }
    ensures gives { (told : List Deal) × (asked : List Asking) × Goes (W.seen.view wire.old).transcript (W.seen.view wire.new).transcript told
        × (F.asked forward.new ≡ behind (F.asked forward.old) asked)
        × ((bytes : List ℕ) (given : List PartItem) → StandsFor live.old.conn bytes given
        → PieceGives live.old.number (standing reader.old.seen counts.old.answered) bytes given piece.now told asked result live.new
        (standing reader.new.seen counts.new.answered)) }
    ensures same { live.new.number ≡ live.old.number }
    ensures leaves { LeavesBoth live.old.number result (W.seen.view wire.old) (W.seen.view wire.new) (F.forward_faults forward.old)
        (F.forward_faults forward.new) }
{
    match live.conn.feed(piece) {
        Ok(parts) => take_parts(
            alloc,
            wire,
            forward,
            gate,
            reader,
            counts,
            live.number,
            parts.into_vec(),
        ),
        Err(NoMemory) => {
            starve(wire, live.number);
            false
        }
    }
}
