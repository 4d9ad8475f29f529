//! Writing whole pieces.
ghost use Rattle.std.specs.Prelude.{◌≤◌, ◌<◌, ℕ, take, length, OnOk, OnErr};
ghost use Rattle.std.specs.Io.KnownBytes.{Appends};
ghost use Rattle.sm_ends.specs.Faults.{HasCause};
ghost use Rattle.sm_ends.specs.Moves.{AppendsFront};

use crate::{Failed, Sink};

/// Writes all the bytes. Where the sink fails, a front of them has gone out.
pub fn write_all<O: Sink>(sink: &mut O, bytes: &[u8]) -> Result<(), Failed>
    ensures ok { OnOk result (Appends (O.held sink.old) (O.held sink.new) bytes.now) }
    ensures err { OnErr result (AppendsFront (O.held sink.old) (O.held sink.new) bytes.now) }
    ensures cause { HasCause (O.faults sink.old) (O.faults sink.new) result }
{
    let mut done = 0;
    while done < bytes.len() {
        done += sink.write(&bytes[done..])?;
    }
    Ok(())
}
