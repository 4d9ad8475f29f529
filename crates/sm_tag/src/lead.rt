//! What comes next in a text.
ghost use Rattle.std.specs.Prelude.{◌≡◌, ◌≤◌, length, IfOk};
ghost use Rattle.sm_tag.specs.TagMarkup.{lead_at};
ghost use Rattle.sm_tag.specs.Tags.{Founds};
ghost use Rattle.sm_tag.specs.Advances.{MovesOn};

use crate::grammar::{Lead, Markup};
use crate::halt::Halt;
use crate::markup::markup_of;
use crate::scan::{Class, skip_spaces, split};
use sm_model::NoMemory;
use std::alloc::Global;

// What comes next up to a `<`, how many bytes are left from its place on, and what is behind it.
#[tactic(auto, unfolding(crate::specs::TagMarkup::lead_at))]
fn lead_of(inside: bool, bytes: &[u8]) -> (Lead, usize, &[u8])
    ensures read { (result.0, result.1, result.2.now) ≡ lead_at inside bytes.now }
    ensures moves_on { MovesOn result.0 (length result.2.now) (length bytes.now) }
    ensures left { result.1 ≤ length bytes.now }
    ensures behind { length result.2.now ≤ length bytes.now }
{
    if inside {
        let (run, rest) = split(Class::Text, bytes);
        match (run, rest) {
            (_, []) => (Lead::Lost, 0, rest),
            ([], [_, others @ ..]) => (Lead::Tag, bytes.len(), others),
            ([_, ..], [_, ..]) => (Lead::Run, bytes.len(), rest),
        }
    } else {
        let bytes = skip_spaces(bytes);
        match bytes {
            [] => (Lead::Ended, 0, bytes),
            [b'<', others @ ..] => (Lead::Tag, bytes.len(), others),
            [_, ..] => {
                let (_, rest) = split(Class::Text, bytes);
                match rest {
                    [] => (Lead::Lost, 0, rest),
                    [_, ..] => (Lead::Stray, rest.len(), &rest[..0]),
                }
            }
        }
    }
}

/// What comes next, where comments and the like are passed over: what it is, the tag if it is one, how many bytes are
/// left from its place on, and what is behind it.
pub fn found_of(
    alloc: Global,
    inside: bool,
    bytes: &[u8],
) -> Result<(Lead, Markup, usize, &[u8]), NoMemory>
    ensures found { IfOk result (λ x. Founds inside bytes.now (x.0, x.1, x.2, x.3.now)) }
    ensures left { IfOk result (λ x. x.2 ≤ length bytes.now) }
    ensures moves_on { IfOk result (λ x. MovesOn x.0 (length x.3.now) (length bytes.now)) }
    ensures shorter { IfOk result (λ x. length x.3.now ≤ length bytes.now) }
{
    let mut rest = bytes;
    'skips: loop {
        let (lead, left, behind) = lead_of(inside, rest);
        match lead {
            Lead::Tag => {}
            other => return Ok((other, Markup::Skipped, left, behind)),
        }
        let (markup, more) = match markup_of(alloc, behind) {
            Ok(found) => found,
            Err(Halt::Memory) => return Err(NoMemory),
            Err(Halt::Short) => return Ok((Lead::Lost, Markup::Skipped, 0, &behind[..0])),
            Err(Halt::Wrong) => return Ok((Lead::Stray, Markup::Skipped, left, &behind[..0])),
        };
        match markup {
            Markup::Skipped => {
                rest = more;
            }
            other => return Ok((Lead::Tag, other, left, more)),
        }
    }
}
