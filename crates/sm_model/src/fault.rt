//! Why a reader gives no value.
ghost use Rattle.std.specs.Prelude.{◌≡◌};
ghost use Rattle.sm_model.specs.declared.fault.ReadFault.TheVariants as read;
ghost use Rattle.sm_model.specs.declared.fault.TextFault.TheVariants as text;

use crate::{Cause, NoMemory};
use std::alloc::AllocError;
use thiserror::Error;

/// Why boxes or the head of a message aren't read.
#[derive(Debug, Drop, PartialEq, Eq, Error)]
pub enum ReadFault {
    /// The first cause that holds, in the order in which they are listed with the definition of what is read.
    #[error("{0}")]
    Refused(Cause),
    #[error("out of memory")]
    NoMemory,
}

impl From<NoMemory> for ReadFault {
    ghost from_gives = { λ _ e. e ≡ read.NoMemory };

    fn from(_: NoMemory) -> ReadFault {
        ReadFault::NoMemory
    }
}

impl From<AllocError> for ReadFault {
    ghost from_gives = { λ _ e. e ≡ read.NoMemory };

    fn from(_: AllocError) -> ReadFault {
        ReadFault::NoMemory
    }
}

/// Why a text of tags isn't read.
#[derive(Clone, Copy, Debug, PartialEq, Eq, Error)]
pub enum TextFault {
    /// The text is none of its kind. `at` is the place of the `<` of the element at fault, counted from the first byte of the
    /// text: the least such place, where several elements are. It is the length of the text where that ends too early or says
    /// too little. An element that lacks a part stands at fault once it has ended.
    #[error("wrong at byte {at} of the text")]
    Bad { at: u64 },
    #[error("out of memory")]
    NoMemory,
}

impl From<NoMemory> for TextFault {
    ghost from_gives = { λ _ e. e ≡ text.NoMemory };

    fn from(_: NoMemory) -> TextFault {
        TextFault::NoMemory
    }
}
