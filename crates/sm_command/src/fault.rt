//! Why a command on a store is not done.

use sm_ends::InputFault;
use sm_model::{Cause, NoMemory};
use thiserror::Error;

/// Why a store is not served or not listed.
#[derive(Debug, Drop, PartialEq, Eq, Error)]
pub enum StoreFault {
    /// The disk failed.
    #[error("the disk failed")]
    DiskFault,
    /// The link could not be had.
    #[error("the link failed")]
    LinkFault,
    /// The files are no store, and this is the place.
    #[error("not a store at {at}")]
    NotAStore { at: u64 },
    /// Reading the ladder failed.
    #[error("reading the ladder failed")]
    Unread,
    /// The ladder has more than 1,048,576 bytes.
    #[error("the ladder is too long")]
    LongLadder,
    /// The input is no ladder, and this is the place.
    #[error("no ladder: wrong at byte {at}")]
    BadLadder { at: u64 },
    /// The channel that stands differs from the ladder.
    #[error("the ladder is refused")]
    Refused(Cause),
    /// One of the limits of the store is met.
    #[error("the store is full")]
    Full,
    /// What was read is no fragment of its address.
    #[error("an entry is damaged")]
    Damaged,
    #[error("out of memory")]
    NoMemory,
}

impl From<NoMemory> for StoreFault {
    ghost use Rattle.std.specs.Prelude.{◌≡◌};
    ghost use Rattle.sm_command.specs.declared.fault.StoreFault.TheVariants as fault;

    ghost from_gives = { λ _ e. e ≡ fault.NoMemory };

    fn from(_: NoMemory) -> StoreFault {
        StoreFault::NoMemory
    }
}

// What a ladder that wasn't read comes to.
impl From<InputFault> for StoreFault {
    ghost use Rattle.std.specs.Prelude.{◌≡◌};
    ghost use Rattle.sm_command.specs.Serving.{fault_of_input};

    ghost from_gives = { λ d e. e ≡ fault_of_input d };

    fn from(fault: InputFault) -> StoreFault {
        match fault {
            InputFault::Failed => StoreFault::Unread,
            InputFault::TooLong => StoreFault::LongLadder,
            InputFault::NoMemory => StoreFault::NoMemory,
        }
    }
}
