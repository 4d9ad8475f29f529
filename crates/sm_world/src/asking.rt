//! A request as events of a link.
ghost use Rattle.std.specs.Prelude.{◌≤◌, ◌++◌, ◌^◌, ℕ, List, IfOk, IfSome, OnOk, length};
ghost use Rattle.sm_site.specs.Scripts.{numbers_after};
ghost use Rattle.sm_world.specs.Bringing.{Brings};

use sm_site::{Crashing, Event, Piece, Script};
use std::alloc::{AllocError, Global};

// The connections of exchanges have numbers from this one on.
const FIRST: u64 = 1 << 63;

// The most bytes of a piece.
const PIECE: usize = 65_536;

// The number of the next connection.
pub(crate) fn next_connection<S: Crashing>(site: &S) -> Option<u64>
    ensures first { IfSome result (λ n. 2 ^ 63 ≤ n) }
    ensures above { IfSome result (λ n. IfSome (S.Disk.seen.view site.now).script (λ deals. numbers_after (S.Link.numbers site.now) deals ≤ n)) }
{
    match site.next_number() {
        Some(number) => Some(number.max(FIRST)),
        None => None,
    }
}

// Puts a piece behind the others.
fn add_piece(
    alloc: Global,
    events: &mut Vec<Event>,
    conn: u64,
    piece: &[u8],
) -> Result<(), AllocError>
    requires some { 1 ≤ length piece.now }
    requires short { length piece.now ≤ 65536 }
    ensures { OnOk result ((bytes : List ℕ) → Brings conn bytes events.old.items → Brings conn (bytes ++ piece.now) events.new.items) }
{
    let piece = Piece::from_vec(piece.to_vec(alloc)?);
    events.push(Event::Piece(conn, piece))?;
    Ok(())
}

// A connection that is opened and brings these bytes, in pieces.
pub(crate) fn script_of(alloc: Global, conn: u64, request: &[u8]) -> Result<Script, AllocError>
    ensures { IfOk result (Brings conn request.now) }
{
    let mut events = Vec::new(alloc);
    events.push(Event::Opened(conn))?;
    let mut rest = request;
    while !rest.is_empty() {
        let (piece, more) = rest.split_at(rest.len().min(PIECE));
        add_piece(alloc, &mut events, conn, piece)?;
        rest = more;
    }
    Ok(Script::from_vec(events))
}
