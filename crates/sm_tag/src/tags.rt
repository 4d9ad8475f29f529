//! The reader of tags.
ghost use Rattle.std.specs.Prelude.{◌≡◌, ◌-◌, ◌<◌, ◌≤◌, [], length, IfOk, OnErr, vec_len, take, false, None};
ghost use Rattle.sm_tag.specs.Tags.{closes, without_zeros, without_mark};
ghost use Rattle.sm_tag.specs.Advances.{MovesOn, Advances};

use crate::grammar::{Lead, Markup};
use crate::lead::found_of;
use sm_model::{Attributes, Bytes, NoMemory, Tag};
use std::alloc::Global;
use std::marker::Model;

/// Reads the tags of a text one after another.
///
/// A text holds one outermost element and white space around it, and comments and `<? ?>` anywhere between its tags. It may
/// begin with the byte order mark of UTF-8, and zero bytes at its end are passed over. References in values are the five
/// named ones and decimal ones. At most 32 elements are open at once. Any bytes may stand in text and values. A place counts
/// from the first byte of the text, the mark included.
#[derive(Drop)]
pub struct Tags<'a> {
    size: usize,
    end: usize,
    rest: &'a [u8],
    open_names: Vec<Bytes>,
    begun: bool,
    bad: Option<u64>,
}

impl<'a> Model for Tags<'a> {
    ghost use Rattle.std.specs.Prelude.{◌≤◌, length};
    ghost use Rattle.sm_tag.specs.Tags.{Left};

    ghost Value = { Left };

    ghost view = { λ t. record { size = t.size; end = t.end; rest = t.rest.now; open_names = t.open_names.items; begun = t.begun; bad = t.bad } };

    ghost invariant = { λ t. length t.rest.now ≤ t.end };
}

// Whether the innermost open element has this name.
fn closes(name: &[u8], names: &[Bytes]) -> bool
    ensures { result ≡ closes name.now names.now }
{
    match names {
        [] => false,
        [.., last] => last.as_slice() == name,
    }
}

fn trim_zeros(text: &[u8]) -> &[u8]
    ensures { result.now ≡ without_zeros text.now }
{
    let mut rest = text;
    while let Some((last, front)) = rest.split_last() {
        if *last != 0 {
            return rest;
        }
        rest = front;
    }
    rest
}

fn skip_mark(bytes: &[u8]) -> &[u8]
    ensures rest { result.now ≡ without_mark bytes.now }
    ensures shorter { length result.now ≤ length bytes.now }
{
    if bytes.starts_with(&[239, 187, 191]) {
        &bytes[3..]
    } else {
        bytes
    }
}

impl<'a> Tags<'a> {
    ghost use Rattle.sm_tag.specs.Tags.{Next, starts, finishes, marks, gives, begin};

    /// A reader before the first tag of this text.
    pub fn new(alloc: Global, text: &'a [u8]) -> Tags<'a>
        ensures { result ≡ begin text.now }
    {
        let trimmed = trim_zeros(text);
        Tags {
            size: text.len(),
            end: trimmed.len(),
            rest: skip_mark(trimmed),
            open_names: Vec::new(alloc),
            begun: false,
            bad: None,
        }
    }

    /// The next tag, up to [`Tag::End`] or the first [`Tag::Bad`], which are answered again and again from then on. Without
    /// memory the reader stays where it is.
    pub fn next(&mut self, alloc: Global) -> Result<Tag, NoMemory>
        ensures ok { IfOk result (λ tag. Next self.old tag self.new) }
        ensures err { OnErr result (self.new ≡ self.old) }
        // what is left gets shorter with each tag, so a loop up to the last one ends
        ensures advances { IfOk result (λ tag. Advances tag (length self.new.rest) (length self.old.rest)) }
    {
        if let Some(at) = self.bad {
            return Ok(Tag::Bad { at });
        }
        let inside = !self.open_names.is_empty();
        let (lead, markup, left, rest) = found_of(alloc, inside, self.rest)?;
        self.step(alloc, lead, markup, left, rest)
    }

    // Takes what was found.
    fn step(
        &mut self,
        alloc: Global,
        lead: Lead,
        markup: Markup,
        left: usize,
        rest: &'a [u8],
    ) -> Result<Tag, NoMemory>
        requires left { left ≤ self.old.end }
        requires rest { length rest.now ≤ self.old.end }
        requires moves_on { MovesOn lead (length rest.now) (length self.old.rest) }
        ensures ok { IfOk result (λ tag. (tag, self.new) ≡ gives self.old lead markup left rest.entry.now) }
        ensures err { OnErr result (self.new ≡ self.old) }
        ensures advances { IfOk result (λ tag. Advances tag (length self.new.rest) (length self.old.rest)) }
    {
        let size = self.size as u64;
        let at = (self.end - left) as u64;
        match lead {
            Lead::Ended => {
                if self.begun {
                    Ok(Tag::End)
                } else {
                    Ok(self.fail(size))
                }
            }
            Lead::Lost => Ok(self.fail(size)),
            Lead::Stray => Ok(self.fail(at)),
            Lead::Run => {
                self.rest = rest;
                Ok(Tag::Text { at })
            }
            Lead::Tag => self.mark(alloc, markup, at, rest),
        }
    }

    // Takes a tag that stands at a place, where `rest` is behind it.
    fn mark(
        &mut self,
        alloc: Global,
        markup: Markup,
        at: u64,
        rest: &'a [u8],
    ) -> Result<Tag, NoMemory>
        requires rest { length rest.now ≤ self.old.end }
        requires moves_on { length rest.now < length self.old.rest }
        ensures ok { IfOk result (λ tag. (tag, self.new) ≡ marks self.old markup at rest.entry.now) }
        ensures err { OnErr result (self.new ≡ self.old) }
        ensures advances { IfOk result (λ tag. Advances tag (length self.new.rest) (length self.old.rest)) }
    {
        match markup {
            Markup::Skipped => Ok(self.fail(at)),
            Markup::Finish(name) => Ok(self.finish(name, at, rest)),
            Markup::Start(name, attributes, empty) => {
                self.start(alloc, name, attributes, empty, at, rest)
            }
        }
    }

    fn start(
        &mut self,
        alloc: Global,
        name: Bytes,
        attributes: Attributes,
        empty: bool,
        at: u64,
        rest: &'a [u8],
    ) -> Result<Tag, NoMemory>
        requires rest { length rest.now ≤ self.old.end }
        requires moves_on { length rest.now < length self.old.rest }
        ensures ok { IfOk result (λ tag. (tag, self.new) ≡ starts self.old name attributes empty at rest.entry.now) }
        ensures err { OnErr result (self.new ≡ self.old) }
        ensures advances { IfOk result (λ tag. Advances tag (length self.new.rest) (length self.old.rest)) }
    {
        let depth = self.open_names.len();
        if self.begun && depth == 0 || 32 <= depth {
            return Ok(self.fail(at));
        }
        if !empty {
            let copy = Bytes::from_slice(alloc, name.as_slice())?;
            self.open_names.push(copy)?;
        }
        self.rest = rest;
        self.begun = true;
        Ok(Tag::Start {
            name,
            attributes,
            empty,
            at,
        })
    }

    fn finish(&mut self, name: Bytes, at: u64, rest: &'a [u8]) -> Tag
        requires rest { length rest.now ≤ self.old.end }
        requires moves_on { length rest.now < length self.old.rest }
        ensures tag { (result, self.new) ≡ finishes self.old name at rest.entry.now }
        ensures advances { Advances result (length self.new.rest) (length self.old.rest) }
    {
        if !closes(name.as_slice(), &self.open_names) {
            return self.fail(at);
        }
        self.rest = rest;
        let _ = self.open_names.pop();
        Tag::Finish { name, at }
    }

    // Keeps the place of the fault.
    fn fail(&mut self, at: u64) -> Tag
        ensures tag { result ≡ Tag.Bad at }
        ensures new { self.new ≡ record self.old { bad = Some at } }
    {
        self.bad = Some(at);
        Tag::Bad { at }
    }
}
