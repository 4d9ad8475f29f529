//! Between two tries, and between two rounds.
ghost use Rattle.std.specs.Prelude.{[]};
ghost use Rattle.sm_pull.specs.Asks.{Asks};

use sm_fetch::Dial;

/// Waits a while where it was tried already, so that the origin may get something new, and one that is started again has time for it.
pub fn rest<C: Dial>(dial: &mut C, again: bool)
    ensures { Asks C.log C.store C.later C.dial_faults C.chosen dial.old dial.new [] }
{
    if again {
        dial.pause();
    }
}
