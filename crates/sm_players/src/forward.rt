//! The way to the loop, for what isn't published any more.
ghost use Rattle.std.specs.Prelude.{◌≡◌, ◌≤◌, ℕ, List, Option, IsErrOf};
ghost use Rattle.sm_site.specs.Clauses.{Rose};
ghost use Rattle.sm_players.specs.declared.forward.ForwardError.TheVariants as error;
ghost use Rattle.sm_players.specs.Asking.{Asking, asked_with};

use sm_model::{Bytes, Target};

/// Why a forward has no reply.
#[derive(Clone, Copy, Debug, PartialEq, Eq)]
pub enum ForwardError {
    /// It failed, and its count rose.
    Failed,
    /// There was no memory for it.
    NoMemory,
}

/// The way to the loop: it asks for a target, and brings the bytes of the reply as they came.
pub trait Forward {
    /// The targets asked so far, each with what it answered, where it tells them: all but those that wanted memory.
    ghost asked: { Self → Option (List Asking) };

    /// How often it has failed. The count stands still at 2^64 - 1.
    ghost forward_faults: { Self → ℕ };

    /// Asks for a target.
    fn ask(&mut self, target: &Target) -> Result<Bytes, ForwardError>
        ensures asked { asked self.new ≡ asked_with (asked self.old) target.now result }
        ensures failed { IsErrOf result error.Failed → Rose (forward_faults self.old) (forward_faults self.new) }
        ensures later { forward_faults self.old ≤ forward_faults self.new };
}
