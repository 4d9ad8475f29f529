//! Calls of `sm_tag`.
use anyhow::{Result, bail};
use sm_model::{Attribute, Attributes, Tag};
use sm_rows::{Case, told_text};
use sm_tag::grammar::Markup;
use sm_tag::{Tags, plain};
use std::alloc::Global;

// Appends a mark and a text.
fn push(out: &mut String, mark: &str, bytes: &[u8]) -> Result<()> {
    let text = str::from_utf8(bytes)?;
    out.push_str(mark)?;
    out.push_str(text)?;
    Ok(())
}

fn push_attribute(out: &mut String, attribute: &Attribute) -> Result<()> {
    push(out, "[", attribute.name.as_slice())?;
    push(out, "=", attribute.value.as_slice())?;
    out.push(']')?;
    Ok(())
}

fn push_start(out: &mut String, name: &[u8], attributes: &Attributes, empty: bool) -> Result<()> {
    push(out, "+", name)?;
    for attribute in attributes.as_slice() {
        push_attribute(out, attribute)?;
    }
    if empty {
        out.push('/')?;
    }
    Ok(())
}

fn push_place(alloc: Global, out: &mut String, place: u64) -> Result<()> {
    let text = format!(in alloc; "@{place} ")?;
    out.push_str(text.as_str())?;
    Ok(())
}

fn push_bad(alloc: Global, out: &mut String, place: u64) -> Result<()> {
    let text = format!(in alloc; "bad@{place}")?;
    out.push_str(text.as_str())?;
    Ok(())
}

// Appends what a tag is told as.
fn push_tag(alloc: Global, out: &mut String, tag: &Tag) -> Result<()> {
    match tag {
        Tag::Start {
            name,
            attributes,
            empty,
            at,
        } => {
            push_start(out, name.as_slice(), attributes, *empty)?;
            push_place(alloc, out, *at)
        }
        Tag::Finish { name, at } => {
            push(out, "-", name.as_slice())?;
            push_place(alloc, out, *at)
        }
        Tag::Text { at } => {
            out.push('.')?;
            push_place(alloc, out, *at)
        }
        Tag::End => Ok(out.push_str("end")?),
        Tag::Bad { at } => push_bad(alloc, out, *at),
    }
}

// Whether a text ends with a tag.
fn is_last(tag: &Tag) -> bool {
    matches!(tag, Tag::End | Tag::Bad { .. })
}

// Appends what the next tag is told as, and says whether the text ends there.
fn push_next(alloc: Global, out: &mut String, tags: &mut Tags<'_>) -> Result<bool> {
    let tag = tags.next(alloc)?;
    push_tag(alloc, out, &tag)?;
    Ok(is_last(&tag))
}

fn push_tags(alloc: Global, out: &mut String, tags: &mut Tags<'_>) -> Result<()> {
    for _ in 0..300_000 {
        if push_next(alloc, out, tags)? {
            break;
        }
    }
    Ok(())
}

// What a text is read as: `+a[b=c]@0` for a start tag, with a `/` where its element is empty, `-a@5` for an end tag, `.@3` for
// text, `end`, and `bad@7`.
fn tags(alloc: Global, case: &Case<'_>) -> Result<String> {
    let text = case.bytes(alloc, "text")?;
    let mut tags = Tags::new(alloc, text.as_slice());
    let mut out = String::new(alloc);
    push_tags(alloc, &mut out, &mut tags)?;
    Ok(told_text(alloc, case, out.as_str())?)
}

fn push_calls(alloc: Global, out: &mut String, tags: &mut Tags<'_>, calls: u64) -> Result<()> {
    for _ in 0..calls {
        if push_next(alloc, out, tags)? {
            out.push(' ')?;
        }
    }
    Ok(())
}

// The same with so many calls, whatever they give.
fn calls(alloc: Global, case: &Case<'_>) -> Result<String> {
    let text = case.bytes(alloc, "text")?;
    let calls = case.number(alloc, "calls")?;
    let mut tags = Tags::new(alloc, text.as_slice());
    let mut out = String::new(alloc);
    push_calls(alloc, &mut out, &mut tags, calls)?;
    Ok(out)
}

fn push_markup(out: &mut String, markup: &Markup) -> Result<()> {
    match markup {
        Markup::Skipped => Ok(out.push('?')?),
        Markup::Finish(name) => push(out, "-", name.as_slice()),
        Markup::Start(name, attributes, empty) => {
            push_start(out, name.as_slice(), attributes, *empty)
        }
    }
}

// What a whole piece of text is: told as a tag is, and `?` for what is passed over.
fn piece(alloc: Global, text: &[u8]) -> Result<String> {
    let Some(markup) = plain::piece_of(alloc, text)? else {
        return Ok(String::from_str(alloc, "none")?);
    };
    let mut out = String::new(alloc);
    push_markup(&mut out, &markup)?;
    Ok(out)
}

fn piece_of(alloc: Global, case: &Case<'_>) -> Result<String> {
    let text = case.bytes(alloc, "text")?;
    piece(alloc, text.as_slice())
}

/// What a call of `sm_tag` gives.
pub fn answer(alloc: Global, case: &Case<'_>) -> Result<String> {
    match case.call() {
        "sm_tag Tags::next" => tags(alloc, case),
        "sm_tag Tags::next by calls" => calls(alloc, case),
        "sm_tag plain::piece_of" => piece_of(alloc, case),
        _ => bail!("no such call"),
    }
}
