//! The line before a chunk: 1 to 15 hexadecimal digits, then nothing, white space, or a `;` and an extension, then CR LF.
ghost use Rattle.std.specs.Prelude.{◌≡◌, ◌<◌, Some, None, if◌then◌else◌};
ghost use Rattle.std.specs.Char.{is_digit, digit_value};
ghost use Rattle.sm_body.specs.Places as spec;

use crate::Place;

// The value of a hexadecimal digit.
fn hex_value(byte: u8) -> Option<u8>
    ensures { result ≡ (if is_digit byte 16 then Some (digit_value byte) else None) }
{
    match byte {
        b'0'..=b'9' => Some(byte - b'0'),
        b'a'..=b'f' => Some(byte - b'a' + 10),
        b'A'..=b'F' => Some(byte - b'A' + 10),
        _ => None,
    }
}

// Behind a byte that follows the digits.
fn behind_digits(line: u8, size: u64, byte: u8) -> Place
    requires { line < 255 }
    ensures { result ≡ spec.behind_digits line size byte }
{
    match byte {
        b'\r' => Place::LineFeed(size),
        b' ' | b'\t' => Place::Pad(line + 1, size),
        b';' => Place::Extension(line + 1, size),
        _ => Place::Failed,
    }
}

/// Behind a byte at the digits, of which there were `count` with the number `size`.
pub fn in_digits(count: u8, size: u64, byte: u8) -> Place
    ensures { result ≡ spec.in_digits count size byte }
{
    match hex_value(byte) {
        // 15 digits make a number below 2^60
        Some(digit) if count < 15 && size < 1 << 56 => Place::Digits(
            count + 1,
            size * 16 + digit as u64,
        ),
        Some(_) => Place::Failed,
        None if 0 < count && count < 255 => behind_digits(count, size, byte),
        None => Place::Failed,
    }
}

/// Behind a byte at the white space.
pub fn in_pad(line: u8, size: u64, byte: u8) -> Place
    ensures { result ≡ spec.in_pad line size byte }
{
    match byte {
        b'\r' if line < 255 => Place::LineFeed(size),
        b' ' | b'\t' if line < 255 => Place::Pad(line + 1, size),
        _ => Place::Failed,
    }
}

/// Behind a byte at the extension.
pub fn in_extension(line: u8, size: u64, byte: u8) -> Place
    ensures { result ≡ spec.in_extension line size byte }
{
    match byte {
        b'\n' => Place::Failed,
        b'\r' if line < 255 => Place::LineFeed(size),
        _ if line < 255 => Place::Extension(line + 1, size),
        _ => Place::Failed,
    }
}

/// Behind the byte that follows the CR of a line.
pub fn behind_return(size: u64, byte: u8) -> Place
    ensures { result ≡ spec.behind_return size byte }
{
    if byte != b'\n' {
        Place::Failed
    } else if size == 0 {
        Place::TrailerStart(0)
    } else {
        Place::Data(size)
    }
}
