//! Numbers of calls.
ghost use Rattle.std.specs.Prelude.{◌↔◌, IsTrue, Contains};

use sm_model::Sequence;

/// Numbers of calls, from 1: those of an end in memory that are to fail.
pub type Calls = Sequence<u64>;

// Whether the call of this number is to fail.
pub(crate) fn is_to_fail(failing: &Calls, number: u64) -> bool
    ensures { IsTrue result ↔ Contains failing.now number }
{
    failing.as_slice().contains(&number)
}
