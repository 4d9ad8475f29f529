//! A long source that takes no memory.
ghost use Rattle.std.specs.Prelude.{◌≡◌, ◌-◌, ◌<◌, ℕ, min, length, take, Some, IfOk, IsOk};
ghost use Rattle.std.specs.Io.{ReadsAtMost};
ghost use Rattle.std.specs.Io.KnownBytes.{ReadConsumes};
ghost use Rattle.sm_ends.specs.Faults.{HasCause};
ghost use Rattle.sm_ends.specs.Memory.{copies_of};

use crate::{Failed, Source};

/// Gives one byte again and again, as often as it has left. It holds no bytes and never fails.
#[derive(Clone, Copy, Debug, PartialEq, Eq)]
pub struct CountedSource {
    pub byte: u8,
    /// How many bytes are left.
    pub left: u64,
}

impl Source for CountedSource {
    ghost left = { λ s. Some (copies_of s.left s.byte) };

    ghost faults = { λ _. 0 };

    fn read(&mut self, into: &mut [u8]) -> Result<usize, Failed>
        requires { 0 < length into.old }
        ensures bound { ReadsAtMost result into.new }
        ensures bytes { ReadConsumes (Some (copies_of self.old.left self.old.byte)) (Some (copies_of self.new.left self.new.byte)) result into.new }
        ensures cause { HasCause 0 0 result }

        ensures whole { IfOk result (λ n. n ≡ min self.old.left (length into.new)) }
        ensures fails { IsOk result }
    {
        let count = into.len().min(self.left.min(usize::MAX as u64) as usize);
        into[..count].fill(self.byte);
        self.left -= count as u64;
        Ok(count)
    }
}
