//! Attributes of a start tag.
ghost use Rattle.std.specs.Prelude.{◌≡◌, ◌<◌, ◌≤◌, [], length, IfOk};
ghost use Rattle.sm_tag.specs.TagParts.{opening_at, AttributeAt, mark_at, Tails};
ghost use Rattle.sm_tag.specs.Reads.{Gives, GivesBy};

use crate::halt::Halt;
use crate::scan::{byte_of, name_of, skip_spaces};
use crate::value::{quote_of, value_of};
use sm_model::{Attribute, Bytes};
use std::alloc::Global;
use std::collections::BTreeSet;

#[tactic(auto, unfolding(crate::specs::TagParts::opening_at))]
fn opening_of(bytes: &[u8]) -> Result<(&[u8], u8, &[u8]), Halt>
    ensures read { Gives (λ x. (x.0.now, x.1, x.2.now)) result (opening_at bytes.now) }
    ensures shorter { IfOk result (λ x. length x.2.now ≤ length bytes.now) }
{
    let (name, rest) = name_of(bytes)?;
    let rest = byte_of(b'=', skip_spaces(rest))?;
    let (quote, rest) = quote_of(skip_spaces(rest))?;
    Ok((name, quote, rest))
}

/// The name and the value of an attribute, and what is behind it.
pub fn attribute_of(alloc: Global, bytes: &[u8]) -> Result<(&[u8], Bytes, &[u8]), Halt>
    ensures read { GivesBy (λ x. (record { name = x.0.now; value = x.1 }, x.2.now)) result (AttributeAt bytes.now) }
    ensures shorter { IfOk result (λ x. length x.2.now < length bytes.now) }
{
    let (name, quote, rest) = opening_of(bytes)?;
    let (value, rest) = value_of(alloc, quote, rest)?;
    Ok((name, Bytes::from_vec(value), rest))
}

/// Where the tag ends: whether its element is empty, and what is behind it. Else where an attribute is to stand.
#[tactic(auto, unfolding(crate::specs::TagParts::mark_at))]
pub fn mark_of(bytes: &[u8]) -> Result<(Option<bool>, &[u8]), Halt>
    ensures read { Gives (λ x. (x.0, x.1.now)) result (mark_at bytes.now) }
    ensures shorter { IfOk result (λ x. length x.1.now ≤ length bytes.now) }
{
    let rest = skip_spaces(bytes);
    match rest {
        [] => Err(Halt::Short),
        [first, others @ ..] => {
            if *first == b'>' {
                return Ok((Some(false), others));
            }
            if *first == b'/' {
                return Ok((Some(true), byte_of(b'>', others)?));
            }
            if rest.len() < bytes.len() {
                Ok((None, rest))
            } else {
                Err(Halt::Wrong)
            }
        }
    }
}

/// What stands between a start tag's name and its end: the attributes, whether the element is empty, and what is behind
/// the tag. The names seen are kept in order, so that many attributes are read about as fast as few.
pub fn attributes_of(alloc: Global, bytes: &[u8]) -> Result<(Vec<Attribute>, bool, &[u8]), Halt>
    ensures read { GivesBy (λ x. (x.0.items, x.1, x.2.now)) result (Tails [] bytes.now) }
    ensures shorter { IfOk result (λ x. length x.2.now ≤ length bytes.now) }
{
    let mut attributes = Vec::new(alloc);
    let mut names: BTreeSet<&[u8]> = BTreeSet::new(alloc);
    let mut rest = bytes;
    'attributes: loop {
        let (mark, behind) = mark_of(rest)?;
        if let Some(empty) = mark {
            return Ok((attributes, empty, behind));
        }
        let (name, value, behind) = attribute_of(alloc, behind)?;
        let fresh = names.insert(name)?;
        if !fresh {
            return Err(Halt::Wrong);
        }
        let name = Bytes::from_slice(alloc, name)?;
        attributes.push(Attribute { name, value })?;
        rest = behind;
    }
}
