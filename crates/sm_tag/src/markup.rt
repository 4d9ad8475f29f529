//! What begins with `<`.
ghost use Rattle.std.specs.Prelude.{◌≡◌, ◌≤◌, length, IfOk};
ghost use Rattle.sm_tag.specs.TagMarkup.{finish_at, comment_at, instruction_at, Starts, Markups};
ghost use Rattle.sm_tag.specs.Reads.{Gives, GivesBy};

use crate::attribute::attributes_of;
use crate::grammar::Markup;
use crate::halt::Halt;
use crate::scan::{byte_of, name_of, past_of, skip_spaces, word_of};
use sm_model::{Attributes, Bytes};
use std::alloc::Global;

#[tactic(auto, unfolding(crate::specs::TagMarkup::finish_at))]
pub fn finish_of(alloc: Global, bytes: &[u8]) -> Result<(Markup, &[u8]), Halt>
    ensures read { Gives (λ x. (x.0, x.1.now)) result (finish_at bytes.now) }
    ensures shorter { IfOk result (λ x. length x.1.now ≤ length bytes.now) }
{
    let (name, rest) = name_of(bytes)?;
    let rest = byte_of(b'>', skip_spaces(rest))?;
    Ok((Markup::Finish(Bytes::from_slice(alloc, name)?), rest))
}

#[tactic(auto, unfolding(crate::specs::TagMarkup::comment_at))]
pub fn comment_of(bytes: &[u8]) -> Result<(Markup, &[u8]), Halt>
    ensures read { Gives (λ x. (x.0, x.1.now)) result (comment_at bytes.now) }
    ensures shorter { IfOk result (λ x. length x.1.now ≤ length bytes.now) }
{
    let rest = word_of(b"--", bytes)?;
    Ok((Markup::Skipped, past_of(b"-->", rest)?))
}

#[tactic(auto, unfolding(crate::specs::TagMarkup::instruction_at))]
pub fn instruction_of(bytes: &[u8]) -> Result<(Markup, &[u8]), Halt>
    ensures read { Gives (λ x. (x.0, x.1.now)) result (instruction_at bytes.now) }
    ensures shorter { IfOk result (λ x. length x.1.now ≤ length bytes.now) }
{
    Ok((Markup::Skipped, past_of(b"?>", bytes)?))
}

fn start_of(alloc: Global, bytes: &[u8]) -> Result<(Markup, &[u8]), Halt>
    ensures read { GivesBy (λ x. (x.0, x.1.now)) result (Starts bytes.now) }
    ensures shorter { IfOk result (λ x. length x.1.now ≤ length bytes.now) }
{
    let (name, rest) = name_of(bytes)?;
    let (attributes, empty, rest) = attributes_of(alloc, rest)?;
    let name = Bytes::from_slice(alloc, name)?;
    let attributes = Attributes::from_vec(attributes);
    Ok((Markup::Start(name, attributes, empty), rest))
}

/// What stands behind `<`, and what is behind its `>`.
pub fn markup_of(alloc: Global, bytes: &[u8]) -> Result<(Markup, &[u8]), Halt>
    ensures read { GivesBy (λ x. (x.0, x.1.now)) result (Markups bytes.now) }
    ensures shorter { IfOk result (λ x. length x.1.now ≤ length bytes.now) }
{
    match bytes {
        [] => Err(Halt::Short),
        [b'?', others @ ..] => instruction_of(others),
        [b'!', others @ ..] => comment_of(others),
        [b'/', others @ ..] => finish_of(alloc, others),
        [_, ..] => start_of(alloc, bytes),
    }
}
