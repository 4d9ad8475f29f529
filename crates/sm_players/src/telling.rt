//! Sending, and closing behind what was sent.
ghost use Rattle.std.specs.Prelude.{◌≡◌, ◌++◌, true, false, List, IfSome};
ghost use Rattle.sm_site.specs.Meanings.{Deal, IsLive};
ghost use Rattle.sm_players.specs.Telling.{Goes, LeavesWire, Tells, is_open};

use crate::wire::Wire;
use sm_head::NO_MEMORY;

/// What became of bytes that were sent.
#[derive(Clone, Copy, Debug, PartialEq, Eq)]
pub enum Outcome {
    /// They went out whole, and the connection is open.
    Open,
    /// They went out whole, and the connection is closed.
    Closed,
    /// The send failed, and the connection is closed.
    Failed,
}

// Whether the connection is open.
pub(crate) fn is_open(outcome: Outcome) -> bool
    ensures { result ≡ is_open outcome }
{
    match outcome {
        Outcome::Open => true,
        Outcome::Closed | Outcome::Failed => false,
    }
}

// Sends these bytes and right behind them those, in one send, and closes the connection where it is to be closed or the send failed.
pub(crate) fn tell<W: Wire>(
    wire: &mut W,
    number: u64,
    head: &[u8],
    tail: &[u8],
    close: bool,
) -> Outcome
    requires live { IfSome (W.seen.view wire.old).transcript (IsLive number) }
    ensures goes { (deals : List Deal) × Goes (W.seen.view wire.old).transcript (W.seen.view wire.new).transcript deals
        × Tells number (head.now ++ tail.now) close deals result }
    ensures leaves { LeavesWire number (is_open result) (W.seen.view wire.old) (W.seen.view wire.new) }
{
    match wire.send_both(number, head, tail) {
        Ok(()) => {
            if close {
                wire.close(number);
                return Outcome::Closed;
            }
            Outcome::Open
        }
        Err(_) => {
            wire.close(number);
            Outcome::Failed
        }
    }
}

// Sends 500 in place of what comes next, and closes.
pub(crate) fn starve<W: Wire>(wire: &mut W, number: u64) -> Outcome
    requires live { IfSome (W.seen.view wire.old).transcript (IsLive number) }
    ensures goes { (deals : List Deal) × Goes (W.seen.view wire.old).transcript (W.seen.view wire.new).transcript deals
        × Tells number NO_MEMORY.now true deals result }
    ensures leaves { LeavesWire number false (W.seen.view wire.old) (W.seen.view wire.new) }
{
    tell(wire, number, NO_MEMORY, &[], true)
}
