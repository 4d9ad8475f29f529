//! Between two tries.
ghost use Rattle.std.specs.Prelude.{◌≡◌};
ghost use Rattle.sm_fetch.specs.Origins.{DialAlone};

use sm_fetch::Dial;

/// Waits a while where it was tried already, so that an origin that is started again has time for it.
pub fn rest<C: Dial>(dial: &mut C, again: bool)
    ensures log { C.log dial.new ≡ C.log dial.old }
    ensures dial { DialAlone C.log C.store C.later C.dial_faults C.chosen dial.old dial.new }
{
    if again {
        dial.pause();
    }
}
