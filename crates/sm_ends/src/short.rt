//! Ends that move few bytes a call, as a socket may.
ghost use Rattle.std.specs.Prelude.{◌≡◌, ◌<◌, ◌≤◌, length, IfOk};
ghost use Rattle.std.specs.Io.{ReadsAtMost, WritesAtMost};
ghost use Rattle.std.specs.Io.KnownBytes.{ReadConsumes, WriteAppends};
ghost use Rattle.sm_ends.specs.Faults.{HasCause};

use crate::{Failed, Sink, Source};

/// A source of which a call gives at most `most` bytes.
#[derive(Drop)]
pub struct ShortSource<S> {
    pub inner: S,
    /// At least 1.
    pub most: usize,
    ghost some: { 0 < most },
}

impl<S: Source> Source for ShortSource<S> {
    ghost left = { λ s. S.left s.inner };

    ghost faults = { λ s. S.faults s.inner };

    fn read(&mut self, into: &mut [u8]) -> Result<usize, Failed>
        requires { 0 < length into.old }
        ensures bound { ReadsAtMost result into.new }
        ensures bytes { ReadConsumes (S.left self.old.inner) (S.left self.new.inner) result into.new }
        ensures cause { HasCause (S.faults self.old.inner) (S.faults self.new.inner) result }

        ensures short { IfOk result (λ n. n ≤ self.old.most) }
        ensures kept { self.new.most ≡ self.old.most }
    {
        let count = into.len().min(self.most);
        self.inner.read(&mut into[..count])
    }
}

/// A sink of which a call takes at most `most` bytes.
#[derive(Drop)]
pub struct ShortSink<S> {
    pub inner: S,
    /// At least 1.
    pub most: usize,
    ghost some: { 0 < most },
}

impl<S: Sink> Sink for ShortSink<S> {
    ghost held = { λ s. S.held s.inner };

    ghost faults = { λ s. S.faults s.inner };

    fn write(&mut self, bytes: &[u8]) -> Result<usize, Failed>
        ensures bound { WritesAtMost result bytes.now }
        ensures some { 0 < length bytes.now → IfOk result (λ n. 0 < n) }
        ensures bytes { WriteAppends (S.held self.old.inner) (S.held self.new.inner) result bytes.now }
        ensures cause { HasCause (S.faults self.old.inner) (S.faults self.new.inner) result }

        ensures short { IfOk result (λ n. n ≤ self.old.most) }
        ensures kept { self.new.most ≡ self.old.most }
    {
        let count = bytes.len().min(self.most);
        self.inner.write(&bytes[..count])
    }
}
