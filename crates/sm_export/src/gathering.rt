//! Gathering what goes out, so that one write takes many small texts.
ghost use Rattle.std.specs.Prelude.{◌≡◌, []};
ghost use Rattle.sm_export.specs.Gathering.{IsPassedOn};
ghost use Rattle.sm_export.specs.declared.gathering.Broken.TheVariants as broken;

use sm_ends::{Failed, Sink, write_all};
use sm_model::NoMemory;

// Why a file ends too early.
#[derive(Clone, Copy, Debug, PartialEq, Eq)]
pub(crate) enum Broken {
    DiskFault,
    Damaged,
    WriteFault,
    NoMemory,
}

impl From<Failed> for Broken {
    ghost from_gives = { λ _ e. e ≡ broken.WriteFault };

    fn from(_: Failed) -> Broken {
        Broken::WriteFault
    }
}

impl From<NoMemory> for Broken {
    ghost from_gives = { λ _ e. e ≡ broken.NoMemory };

    fn from(_: NoMemory) -> Broken {
        Broken::NoMemory
    }
}

// How many bytes are gathered before they are written. Those of 20 texts of 6 kB go out by one call then, which costs little beside them,
// and a processor still has them at hand.
const FULL: usize = 131_072;

// A piece of at most so many bytes is gathered. To copy a longer one would cost more than the call that writes it alone.
const SMALL: usize = 16_384;

// The front of a text of 250 samples has no more bytes than this.
const FRONT: usize = 4_096;

// How much room there is for what is gathered, in bytes, from the first: behind what isn't full yet one text more has room whose front and
// block are as small. A longer front makes the room grow, and it stays so.
pub(crate) const ROOM: usize = FULL + FRONT + SMALL;

// Writes all that is gathered. Nothing is gathered then, also where the sink failed.
pub(crate) fn write_gathered<O: Sink>(gathered: &mut Vec<u8>, out: &mut O) -> Result<(), Broken>
    ensures wrote { IsPassedOn (O.held out.old) (O.held out.new) (O.faults out.old) (O.faults out.new) gathered.old.items gathered.new.items [] result }
    ensures none { gathered.new.items ≡ [] }
{
    let written = write_all(out, gathered.as_slice());
    gathered.clear();
    Ok(written?)
}

// Writes all that is gathered where it is full.
pub(crate) fn write_if_full<O: Sink>(gathered: &mut Vec<u8>, out: &mut O) -> Result<(), Broken>
    ensures { IsPassedOn (O.held out.old) (O.held out.new) (O.faults out.old) (O.faults out.new) gathered.old.items gathered.new.items [] result }
{
    if gathered.len() < FULL {
        Ok(())
    } else {
        write_gathered(gathered, out)
    }
}

// Writes all that is gathered, and then these bytes, without a copy.
fn write_behind<O: Sink>(bytes: &[u8], gathered: &mut Vec<u8>, out: &mut O) -> Result<(), Broken>
    ensures { IsPassedOn (O.held out.old) (O.held out.new) (O.faults out.old) (O.faults out.new) gathered.old.items gathered.new.items bytes.now result }
{
    write_gathered(gathered, out)?;
    Ok(write_all(out, bytes)?)
}

// Passes bytes on: a small piece is gathered, and a longer one written, behind all that is gathered.
pub(crate) fn pass_on<O: Sink>(
    bytes: &[u8],
    gathered: &mut Vec<u8>,
    out: &mut O,
) -> Result<(), Broken>
    ensures { IsPassedOn (O.held out.old) (O.held out.new) (O.faults out.old) (O.faults out.new) gathered.old.items gathered.new.items bytes.now result }
{
    if bytes.len() > SMALL {
        return write_behind(bytes, gathered, out);
    }
    match gathered.extend_from_slice(bytes) {
        Ok(()) => Ok(()),
        Err(_) => Err(Broken::NoMemory),
    }
}
