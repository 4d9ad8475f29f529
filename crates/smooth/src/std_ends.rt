//! Readers and writers as ends. They tell the bytes that their reader or writer tells: the standard streams tell none, since
//! no contract knows what reaches or leaves the system.
ghost use Rattle.std.specs.Prelude.{◌≡◌, ◌<◌, None, false, length, unwrap_or, IfOk, IsErr, IsOk, IsSome};
ghost use Rattle.std.specs.Io.{ReadsAtMost, WritesAtMost};
ghost use Rattle.std.specs.Io.KnownBytes.{ReadConsumes, WriteAppends};
ghost use Rattle.sm_ends.specs.Faults.{HasCause};
ghost use Rattle.smooth.specs.Troubles.{seen_failure};

use sm_ends::{Failed, Sink, Source};
use sm_real::{Doing, Trouble};
use std::io::{Read, Write};

/// The standard input, or another reader of the system's. What the system said of the last failure is kept for people.
#[derive(Drop)]
pub struct StdSource<R> {
    reader: R,
    faults: u64,
    trouble: Option<Trouble>,
}

impl<R: Read> StdSource<R> {
    pub fn new(reader: R) -> StdSource<R>
        ensures reader { result.reader ≡ reader }
        ensures faults { result.faults ≡ 0 }
        ensures trouble { result.trouble ≡ None }
    {
        StdSource {
            reader,
            faults: 0,
            trouble: None,
        }
    }

    /// What the system refused last.
    pub fn trouble(&self) -> Option<Trouble>
        ensures { result ≡ self.now.trouble }
    {
        self.trouble
    }
}

impl<R: Read> Source for StdSource<R> {
    ghost left = { λ s. R.remaining s.reader };

    ghost faults = { λ s. s.faults };

    fn read(&mut self, into: &mut [u8]) -> Result<usize, Failed>
        requires { 0 < length into.old }
        ensures bound { ReadsAtMost result into.new }
        ensures bytes { ReadConsumes (R.remaining self.old.reader) (R.remaining self.new.reader) result into.new }
        ensures cause { HasCause self.old.faults self.new.faults result }
        ensures kept { IsOk result → self.new.trouble ≡ self.old.trouble }
        ensures told { IsErr result → IsSome self.new.trouble }
    {
        match self.reader.read(into) {
            Ok(count) => Ok(count),
            Err(e) => {
                self.trouble = Some(Trouble::new(Doing::Input, e));
                self.faults = self.faults.saturating_add(1);
                Err(Failed)
            }
        }
    }
}

// How a line of a failure begins.
const FAILURE: &[u8] = b"error: ";

/// The standard output, or another writer of the system's.
#[derive(Drop)]
pub struct StdSink<W> {
    writer: W,
    faults: u64,
    // Whether the first bytes that were given to it begin as a line of a failure does; none were given yet.
    has_failure: Option<bool>,
}

impl<W: Write> StdSink<W> {
    pub fn new(writer: W) -> StdSink<W>
        ensures writer { result.writer ≡ writer }
        ensures faults { result.faults ≡ 0 }
        ensures none { result.has_failure ≡ None }
    {
        StdSink {
            writer,
            faults: 0,
            has_failure: None,
        }
    }

    /// Whether what was written begins with the line of a failure.
    pub fn has_failure(&self) -> bool
        ensures { result ≡ unwrap_or self.now.has_failure false }
    {
        self.has_failure.unwrap_or(false)
    }
}

impl<W: Write> Sink for StdSink<W> {
    ghost held = { λ s. W.contents s.writer };

    ghost faults = { λ s. s.faults };

    // A writer that takes no byte of a piece has failed.
    fn write(&mut self, bytes: &[u8]) -> Result<usize, Failed>
        ensures bound { WritesAtMost result bytes.now }
        ensures some { 0 < length bytes.now → IfOk result (λ n. 0 < n) }
        ensures bytes { WriteAppends (W.contents self.old.writer) (W.contents self.new.writer) result bytes.now }
        ensures cause { HasCause self.old.faults self.new.faults result }
        ensures failure { self.new.has_failure ≡ seen_failure self.old.has_failure bytes.now }
    {
        if self.has_failure.is_none() {
            self.has_failure = Some(bytes.starts_with(FAILURE));
        }
        match self.writer.write(bytes) {
            Ok(count) if count > 0 || bytes.is_empty() => Ok(count),
            _ => {
                self.faults = self.faults.saturating_add(1);
                Err(Failed)
            }
        }
    }
}
