// Numbers as text.
ghost use Rattle.std.specs.Prelude.{◌≡◌, ◌++◌, decimal, OnOk};
ghost use Rattle.sm_real.specs.Seconds.{digit as digit_of, seconds};

use itoa::Buffer;
use std::alloc::AllocError;

/// Puts a number behind a line, in decimal.
pub fn put_number(line: &mut Vec<u8>, number: u64) -> Result<(), AllocError>
    ensures { OnOk result (line.new.items ≡ line.old.items ++ decimal number) }
{
    let mut digits = Buffer::new();
    line.extend_from_slice(digits.format(number).as_bytes())
}

/// Puts so many milliseconds behind a line, as seconds with three digits behind a point.
pub fn put_seconds(line: &mut Vec<u8>, millis: u64) -> Result<(), AllocError>
    ensures { OnOk result (line.new.items ≡ line.old.items ++ seconds millis) }
{
    put_number(line, millis / 1_000)?;
    line.extend_from_slice(&[b'.', digit(millis / 100), digit(millis / 10), digit(millis)])
}

// The last digit of a number.
fn digit(number: u64) -> u8
    ensures { result ≡ digit_of number }
{
    b'0' + (number % 10) as u8
}
