//! What takes the tracks of a play.
ghost use Rattle.std.specs.Prelude.{◌≢◌, ℕ, List, Option, OnOk, OnErr};
ghost use Rattle.std.specs.Io.KnownBytes.{Appends, Keeps};
ghost use Rattle.sm_ends.specs.Faults.{HasCause};
ghost use Rattle.sm_ends.specs.Moves.{AppendsFront};

use crate::Failed;

/// Where tracks go, each by its number.
pub trait Tracks {
    /// The bytes that a track holds, where they are told.
    ghost held: { Self → ℕ → Option (List ℕ) };

    /// How often it has failed. The count stands still at 2^64 - 1.
    ghost faults: { Self → ℕ };

    /// Adds the bytes to a track. A call that fails has added a front of them. Every other track stays as it was.
    fn append(&mut self, track: u32, bytes: &[u8]) -> Result<(), Failed>
        ensures ok { OnOk result (Appends (held self.old track) (held self.new track) bytes.now) }
        ensures err { OnErr result (AppendsFront (held self.old track) (held self.new track) bytes.now) }
        ensures others { (k : ℕ) → k ≢ track → Keeps (held self.old k) (held self.new k) }
        ensures cause { HasCause (faults self.old) (faults self.new) result };
}
