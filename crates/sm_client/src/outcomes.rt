//! What came in place of what was asked.
ghost use Rattle.std.specs.Prelude.{◌≡◌};
ghost use Rattle.sm_client.specs.Stands.{miss_of};

use crate::Miss;
use sm_fetch::Got;
use sm_model::Sequence;

/// What came of the tries, in their order. Contracts see a list.
pub type Outcomes = Sequence<Miss>;

/// What came in place of a manifest or a fragment. None of them, and want of memory, is a miss.
pub fn miss_of(got: &Got) -> Option<Miss>
    ensures { result ≡ miss_of got.now }
{
    match got {
        Got::Manifest(_) | Got::Fragment(_) | Got::NoMemory => None,
        Got::Status(status) => Some(Miss::Status(*status)),
        Got::Cut => Some(Miss::Cut),
        Got::Unreadable { at } => Some(Miss::Unreadable { at: *at }),
        Got::Lost => Some(Miss::Lost),
    }
}
