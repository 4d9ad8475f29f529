// What the system refused, for people.
ghost use Rattle.std.specs.Prelude.{◌≡◌};

use std::io;
use thiserror::Error;

/// What was being done when the system refused it. The files of a store are named by their numbers.
#[derive(Clone, Copy, Debug, Error, PartialEq, Eq)]
pub enum Doing {
    #[error("making the folder of the store")]
    Making,
    #[error("opening the store")]
    Opening,
    #[error("opening the journal")]
    Telling,
    #[error("opening {0:08}.seg")]
    OpeningFile(u32),
    #[error("looking at {0:08}.seg")]
    Measuring(u32),
    #[error("reading {0:08}.seg")]
    Reading(u32),
    #[error("writing {0:08}.seg")]
    Writing(u32),
    #[error("bringing {0:08}.seg to rest")]
    Syncing(u32),
    #[error("listening at port {0}")]
    Listening(u16),
    #[error("starting a player")]
    Starting,
    #[error("waiting for connections")]
    Waiting,
    #[error("finding the host")]
    Finding,
    #[error("connecting")]
    Connecting,
    #[error("asking")]
    Asking,
    #[error("reading the input")]
    Input,
}

/// What the system refused, and what it said of it. Each end keeps the last one for people, and no clause speaks of it.
#[derive(Clone, Copy, Debug, Error)]
#[error("{doing}: {error}")]
pub struct Trouble {
    pub doing: Doing,
    pub error: io::Error,
}

impl Trouble {
    pub fn new(doing: Doing, error: io::Error) -> Trouble
        ensures doing { result.doing ≡ doing }
        ensures error { result.error ≡ error }
    {
        Trouble { doing, error }
    }
}
