//! Why a push gives nothing more.
ghost use Rattle.std.specs.Prelude.{◌≡◌};
ghost use Rattle.sm_push.specs.declared.fault.StepFault.TheVariants.{Refused, NoMemory as NoRoom};

use sm_model::{Cause, Items, NoMemory, Refusal};
use thiserror::Error;

/// Why a push gives nothing more.
#[derive(Debug, Drop, Error)]
pub enum PushFault {
    /// The bytes are refused. The items that this call found before the refusal come with it.
    #[error("the push is refused")]
    Refused { before: Items, refusal: Refusal },
    /// An earlier call was refused, or wanted memory.
    #[error("the push has failed before")]
    Failed,
    #[error("out of memory")]
    NoMemory,
}

/// Why a step was not taken.
#[derive(Debug, Drop, PartialEq, Eq)]
pub enum StepFault {
    Refused(Refusal),
    NoMemory,
}

impl From<NoMemory> for StepFault {
    ghost from_gives = { λ _ e. e ≡ NoRoom };

    fn from(_: NoMemory) -> StepFault {
        StepFault::NoMemory
    }
}

// A cause at a place.
pub(crate) fn refuse(at: u64, cause: Cause) -> StepFault
    ensures { result ≡ Refused (record { at = at; cause = cause }) }
{
    StepFault::Refused(Refusal { at, cause })
}
