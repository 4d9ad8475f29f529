//! What a dial is.
ghost use Rattle.std.specs.Prelude.{◌≡◌, ◌≤◌, ℕ, List, Option, IfOk, IsErrOf, OnOk};

use sm_model::{Bytes, NoMemory};
use std::alloc::Global;
use thiserror::Error;

/// What came of an exchange.
#[derive(Debug, Drop)]
pub enum Answer {
    /// The bytes that came until the peer closed or the limit was met, perhaps none.
    Bytes(Bytes),
    /// Nothing, or not all that was sent: the dial failed.
    Lost,
    NoMemory,
}

impl Answer {
    /// An equal answer.
    pub fn copy(&self, alloc: Global) -> Result<Answer, NoMemory>
        ensures { IfOk result (λ a. a ≡ self.now) }
    {
        match self {
            Answer::Bytes(bytes) => {
                Ok(Answer::Bytes(Bytes::from_slice(alloc, bytes.as_slice())?))
            }
            Answer::Lost => Ok(Answer::Lost),
            Answer::NoMemory => Ok(Answer::NoMemory),
        }
    }
}

/// One exchange: a request, how many bytes of a reply were wanted at most, and the answer.
#[derive(Debug, Drop)]
pub struct Exchange {
    pub request: Bytes,
    pub limit: u64,
    pub answer: Answer,
}

/// Why a dial can't be turned to a host.
#[derive(Clone, Copy, Debug, PartialEq, Eq, Error)]
pub enum DialError {
    #[error("the host can't be found")]
    Failed,
    #[error("out of memory")]
    NoMemory,
}

impl From<NoMemory> for DialError {
    ghost use Rattle.sm_fetch.specs.declared.dial.DialError.TheVariants as error;

    ghost from_gives = { λ _ e. e ≡ error.NoMemory };

    fn from(_: NoMemory) -> DialError {
        DialError::NoMemory
    }
}

/// The client's way to one origin: one exchange sends one request and takes one answer.
pub trait Dial {
    ghost use Rattle.sm_model.specs.declared.entry.Entry.{Entry};
    ghost use Rattle.sm_fetch.specs.declared.dial.Exchange.{Exchange};
    ghost use Rattle.sm_fetch.specs.Exchanges.{Peer, logged, Rose, IsTurnedTo, IsWithin};
    ghost use Rattle.sm_fetch.specs.Origins.{Grows, AnswersFrom};

    /// The exchanges so far, where the dial tells them: all but those that wanted memory.
    ghost log: { Self → Option (List Exchange) };

    /// How often it has failed. The count stands still at 2^64 - 1.
    ghost dial_faults: { Self → ℕ };

    /// The logs that the origin behind it may have, where the dial tells any. They only grow.
    ghost store: { Self → List Entry → Type 0 };

    /// The host and port that it was turned to last, where the dial tells them.
    ghost chosen: { Self → Option Peer };

    /// That the second of two dials is a later one than the first: what a dial promises of whatever is done with it. Each call
    /// leaves a later dial than the one it was made on.
    ghost later: { Self → Self → Type 0 };

    /// Turns to the origin at this host and port, for the exchanges that follow. It makes none.
    fn select(&mut self, host: &str, port: u16) -> Result<(), DialError>
        ensures chosen { OnOk result (IsTurnedTo (chosen self.new) host.now port) }
        ensures log { log self.new ≡ log self.old }
        ensures later { dial_faults self.old ≤ dial_faults self.new }
        ensures goes_on { later self.old self.new }
        ensures failed { IsErrOf result DialError.Failed → Rose (dial_faults self.old) (dial_faults self.new) }
        ensures store { Grows (store self.old) (store self.new) };

    /// Sends a request, and takes the reply up to `limit` bytes: a longer one is cut there.
    fn exchange(&mut self, request: &[u8], limit: u64) -> Answer
        ensures chosen { chosen self.new ≡ chosen self.old }
        ensures log { log self.new ≡ logged (log self.old) request.now limit result }
        ensures within { IsWithin limit result }
        ensures later { dial_faults self.old ≤ dial_faults self.new }
        ensures goes_on { later self.old self.new }
        ensures lost { result ≡ Answer.Lost → Rose (dial_faults self.old) (dial_faults self.new) }
        ensures store { AnswersFrom (store self.old) (store self.new) request.now result };

    /// Waits a while, so that the origin may get something new. It makes no exchange.
    fn pause(&mut self)
        ensures chosen { chosen self.new ≡ chosen self.old }
        ensures log { log self.new ≡ log self.old }
        ensures later { dial_faults self.old ≤ dial_faults self.new }
        ensures goes_on { later self.old self.new }
        ensures store { Grows (store self.old) (store self.new) };

    /// A dial that nothing was done with is later than itself.
    ghost later_same: { (d : Self) → later d d };

    /// What is later than a later dial is later.
    ghost later_then: { (d e f : Self) → later d e → later e f → later d f };
}
