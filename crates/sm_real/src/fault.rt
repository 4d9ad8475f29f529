// Why a folder or a port can't be had.
ghost use Rattle.std.specs.Prelude.{◌≡◌, ◌↔◌};
ghost use Rattle.std.specs.IoError.{error_kind};

use sm_model::NoMemory;
use std::alloc::AllocError;
use std::io::{Error as IoError, ErrorKind};
use thiserror::Error;

/// Why a folder or a port can't be had.
#[derive(Clone, Copy, Debug, Error, PartialEq, Eq)]
pub enum OpenFault {
    /// The system refused it, and the count of that end rose.
    #[error("refused by the system")]
    Failed,
    /// There was no memory for it.
    #[error("out of memory")]
    NoMemory,
}

impl OpenFault {
    /// What an error of the system comes to.
    pub fn of(error: &IoError) -> OpenFault
        ensures { (result ≡ OpenFault.NoMemory) ↔ (error_kind error.now ≡ ErrorKind.OutOfMemory) }
    {
        match error.kind() {
            ErrorKind::OutOfMemory => OpenFault::NoMemory,
            _ => OpenFault::Failed,
        }
    }
}

impl From<AllocError> for OpenFault {
    fn from(_: AllocError) -> OpenFault {
        OpenFault::NoMemory
    }
}

impl From<NoMemory> for OpenFault {
    fn from(_: NoMemory) -> OpenFault {
        OpenFault::NoMemory
    }
}
