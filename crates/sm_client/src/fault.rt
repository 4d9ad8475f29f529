//! Why a command at an origin is not done.

use sm_ends::InputFault;
use sm_fetch::DialError;
use thiserror::Error;

/// Why nothing was sent to an origin.
#[derive(Clone, Copy, Debug, PartialEq, Eq, Error)]
pub enum VisitFault {
    /// The dial can't be turned to that host.
    #[error("the link failed")]
    LinkFault,
    /// Reading the input failed.
    #[error("reading failed")]
    Unread,
    /// The input has more than 268,435,456 bytes.
    #[error("the input is too long")]
    TooLong,
    #[error("out of memory")]
    NoMemory,
}

impl From<DialError> for VisitFault {
    ghost use Rattle.std.specs.Prelude.{◌≡◌};
    ghost use Rattle.sm_client.specs.Pushing.{fault_of_dial};

    ghost from_gives = { λ d e. e ≡ fault_of_dial d };

    fn from(fault: DialError) -> VisitFault {
        match fault {
            DialError::Failed => VisitFault::LinkFault,
            DialError::NoMemory => VisitFault::NoMemory,
        }
    }
}

impl From<InputFault> for VisitFault {
    ghost use Rattle.std.specs.Prelude.{◌≡◌};
    ghost use Rattle.sm_client.specs.Pushing.{fault_of_input};

    ghost from_gives = { λ d e. e ≡ fault_of_input d };

    fn from(fault: InputFault) -> VisitFault {
        match fault {
            InputFault::Failed => VisitFault::Unread,
            InputFault::TooLong => VisitFault::TooLong,
            InputFault::NoMemory => VisitFault::NoMemory,
        }
    }
}
