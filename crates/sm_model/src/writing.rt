//! Bytes put behind others.
ghost use Rattle.std.specs.Prelude.{◌≡◌, ◌++◌, decimal, OnOk};

use crate::NoMemory;
use itoa::Buffer;

/// Puts these bytes behind what stands there.
pub fn put(out: &mut Vec<u8>, piece: &[u8]) -> Result<(), NoMemory>
    ensures { OnOk result (out.new.items ≡ out.old.items ++ piece.now) }
{
    out.extend_from_slice(piece)?;
    Ok(())
}

/// Puts a number there in decimal digits, without leading zeros.
pub fn put_number(out: &mut Vec<u8>, number: u64) -> Result<(), NoMemory>
    ensures { OnOk result (out.new.items ≡ out.old.items ++ decimal number) }
{
    let mut digits = Buffer::new();
    put(out, digits.format(number).as_bytes())
}
