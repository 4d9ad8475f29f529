//! Values of attributes.
ghost use Rattle.std.specs.Prelude.{◌≡◌, ◌<◌, ◌≤◌, ◌++◌, [], length, encode_utf8, OnOk, IfErr, IfOk};
ghost use Rattle.sm_tag.specs.TagParts.{quote_at, piece_at, Values};
ghost use Rattle.sm_tag.specs.Reads.{adding_piece, Gives, GivesBy};

use crate::halt::Halt;
use crate::reference::reference_of;
use std::alloc::Global;

/// A quote of either kind, and what is behind it.
#[tactic(auto, unfolding(crate::specs::TagParts::quote_at))]
pub fn quote_of(bytes: &[u8]) -> Result<(u8, &[u8]), Halt>
    ensures read { Gives (λ x. (x.0, x.1.now)) result (quote_at bytes.now) }
    ensures shorter { IfOk result (λ x. length x.1.now ≤ length bytes.now) }
{
    match bytes {
        [] => Err(Halt::Short),
        [first, others @ ..] => {
            if *first == b'"' || *first == b'\'' {
                Ok((*first, others))
            } else {
                Err(Halt::Wrong)
            }
        }
    }
}

fn push_char(out: &mut Vec<u8>, c: char) -> Result<(), Halt>
    ensures ok { OnOk result (out.new.items ≡ out.old.items ++ encode_utf8 c) }
    ensures err { IfErr result (λ e. e ≡ Halt.Memory) }
{
    let mut room = [0u8; 4];
    let text = c.encode_utf8(&mut room);
    out.extend_from_slice(text.as_bytes())?;
    Ok(())
}

// Adds a byte of a value, or the character of a reference. Says whether the value goes on.
#[tactic(auto, unfolding(crate::specs::TagParts::piece_at))]
fn piece_of<'a>(value: &mut Vec<u8>, quote: u8, bytes: &'a [u8]) -> Result<(bool, &'a [u8]), Halt>
    ensures read { Gives (λ x. (x.0, value.new.items, x.1.now)) result (adding_piece value.old.items (piece_at quote bytes.now)) }
    ensures shorter { IfOk result (λ x. length x.1.now < length bytes.now) }
{
    match bytes {
        [] => Err(Halt::Short),
        [first, others @ ..] => {
            if *first == quote {
                return Ok((false, others));
            }
            if *first == b'<' {
                return Err(Halt::Wrong);
            }
            if *first == b'&' {
                let (c, rest) = reference_of(others)?;
                push_char(value, c)?;
                return Ok((true, rest));
            }
            value.push(*first)?;
            Ok((true, others))
        }
    }
}

/// The value behind a quote, up to the next such quote, and what is behind that.
pub fn value_of(alloc: Global, quote: u8, bytes: &[u8]) -> Result<(Vec<u8>, &[u8]), Halt>
    ensures read { GivesBy (λ x. (x.0.items, x.1.now)) result (Values quote [] bytes.now) }
    ensures shorter { IfOk result (λ x. length x.1.now < length bytes.now) }
{
    let mut value = Vec::new(alloc);
    let mut rest = bytes;
    'pieces: loop {
        let (goes_on, behind) = piece_of(&mut value, quote, rest)?;
        if !goes_on {
            return Ok((value, behind));
        }
        rest = behind;
    }
}
