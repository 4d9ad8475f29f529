//! Plain programs beside the grammar of tags: what a whole piece of text is, if it is one of these, and the tags of a text.
ghost use Rattle.std.specs.Prelude.{◌≡◌, ◌≤◌, ◌++◌, List, length, IfOk, OnOk};
ghost use Rattle.sm_model.specs.declared.tag.Tag.{Tag as TagValue};
ghost use Rattle.sm_tag.specs.TagParts.{has_name, Tails};
ghost use Rattle.sm_tag.specs.TagMarkup.{Markups, Starts};
ghost use Rattle.sm_tag.specs.Tags.{Runs, TagsOf, is_last};
ghost use Rattle.sm_tag.specs.Grammar.{IsPiece};
ghost use Rattle.sm_tag.specs.Reads.{GivesBy};

use crate::Tags;
use crate::attribute::{attribute_of, mark_of};
use crate::grammar::Markup;
use crate::halt::Halt;
use crate::markup::{comment_of, finish_of, instruction_of};
use crate::scan::name_of;
use sm_model::{Attribute, Attributes, Bytes, NoMemory, Tag, is_same};
use std::alloc::Global;

fn has_name(name: &[u8], attributes: &[Attribute]) -> bool
    ensures { result ≡ has_name name.now attributes.now }
{
    match attributes {
        [] => false,
        [first, others @ ..] => is_same(name, first.name.as_slice()) || has_name(name, others),
    }
}

// What stands behind a name and the attributes seen: all of them, whether the element is empty, and what is behind the tag.
fn tail_of(
    alloc: Global,
    mut seen: Vec<Attribute>,
    bytes: &[u8],
) -> Result<(Vec<Attribute>, bool, &[u8]), Halt>
    ensures { GivesBy (λ x. (x.0.items, x.1, x.2.now)) result (Tails seen.items bytes.now) }
{
    let (mark, behind) = mark_of(bytes)?;
    if let Some(empty) = mark {
        return Ok((seen, empty, behind));
    }
    let (name, value, behind) = attribute_of(alloc, behind)?;
    if has_name(name, &seen) {
        return Err(Halt::Wrong);
    }
    let name = Bytes::from_slice(alloc, name)?;
    seen.push(Attribute { name, value })?;
    tail_of(alloc, seen, behind)
}

fn start_of(alloc: Global, bytes: &[u8]) -> Result<(Markup, &[u8]), Halt>
    ensures { GivesBy (λ x. (x.0, x.1.now)) result (Starts bytes.now) }
{
    let (name, rest) = name_of(bytes)?;
    let (attributes, empty, rest) = tail_of(alloc, Vec::new(alloc), rest)?;
    let name = Bytes::from_slice(alloc, name)?;
    let attributes = Attributes::from_vec(attributes);
    Ok((Markup::Start(name, attributes, empty), rest))
}

fn markup_of(alloc: Global, bytes: &[u8]) -> Result<(Markup, &[u8]), Halt>
    ensures { GivesBy (λ x. (x.0, x.1.now)) result (Markups bytes.now) }
{
    match bytes {
        [] => Err(Halt::Short),
        [b'?', others @ ..] => instruction_of(others),
        [b'!', others @ ..] => comment_of(others),
        [b'/', others @ ..] => finish_of(alloc, others),
        [_, ..] => start_of(alloc, bytes),
    }
}

/// What a whole piece of text is by the grammar: a start tag, an end tag, or what is passed over.
pub fn piece_of(alloc: Global, piece: &[u8]) -> Result<Option<Markup>, NoMemory>
    ensures { IfOk result (λ m. IsPiece piece.now m) }
{
    match piece {
        [] => Ok(None),
        [first, behind @ ..] => {
            if *first != b'<' {
                return Ok(None);
            }
            match markup_of(alloc, behind) {
                Ok((markup, rest)) => {
                    if rest.is_empty() {
                        Ok(Some(markup))
                    } else {
                        Ok(None)
                    }
                }
                Err(Halt::Memory) => Err(NoMemory),
                Err(Halt::Short) => Ok(None),
                Err(Halt::Wrong) => Ok(None),
            }
        }
    }
}

// Adds the tags that are left of a text.
fn add_tags<'a>(alloc: Global, mut reader: Tags<'a>, tags: &mut Vec<Tag>) -> Result<(), NoMemory>
    ensures { OnOk result ((more : List TagValue) × Runs reader.entry more × (tags.new.items ≡ tags.old.items ++ more)) }
{
    let tag = reader.next(alloc)?;
    let last = is_last(&tag);
    tags.push(tag)?;
    if last {
        Ok(())
    } else {
        add_tags(alloc, reader, tags)
    }
}

fn is_last(tag: &Tag) -> bool
    ensures { result ≡ is_last tag.now }
{
    matches!(tag, Tag::End | Tag::Bad { .. })
}

/// The tags of a text, up to its end or the first fault.
pub fn tags(alloc: Global, text: &[u8]) -> Result<Vec<Tag>, NoMemory>
    ensures { IfOk result (λ v. TagsOf text.now v.items) }
{
    let mut tags = Vec::new(alloc);
    add_tags(alloc, Tags::new(alloc, text), &mut tags)?;
    Ok(tags)
}
