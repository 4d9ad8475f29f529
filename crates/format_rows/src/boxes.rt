//! Calls of `sm_box`.
use crate::told;
use anyhow::{Result, bail};
use sm_box::{
    BoxHead, Child, Children, Found, Head, append_u32, append_u64, find_kind, put_box, u32_at,
    u64_at, whole_at,
};
use sm_rows::{Case, Words, hex, told as told_bytes, told_text};
use std::alloc::Global;

// The four bytes of a kind of box.
fn kind_of(bytes: &[u8]) -> Result<[u8; 4]> {
    match bytes {
        [a, b, c, d] => Ok([*a, *b, *c, *d]),
        _ => bail!("a kind has not four bytes"),
    }
}

// The kind of box that a row says.
fn kind_said(alloc: Global, case: &Case<'_>) -> Result<[u8; 4]> {
    let bytes = case.bytes(alloc, "kind")?;
    kind_of(bytes.as_slice())
}

// Tells a kind of box.
fn kind_text(alloc: Global, kind: &[u8; 4]) -> Result<String> {
    match str::from_utf8(kind.as_slice()) {
        Ok(text) => told::text(alloc, text),
        Err(_) => Ok(hex(alloc, kind.as_slice())?),
    }
}

fn whole_head(alloc: Global, kind: &[u8; 4], head: u64, size: u64) -> Result<String> {
    let kind = kind_text(alloc, kind)?;
    Ok(format!(in alloc; "{kind} head {head} size {size}")?)
}

fn head(alloc: Global, bytes: &[u8]) -> Result<String> {
    match BoxHead::read(bytes) {
        Head::Whole { kind, head, size } => whole_head(alloc, &kind, head, size),
        Head::Short => told::text(alloc, "short"),
        Head::Bad => told::text(alloc, "bad"),
        Head::OpenEnded => told::text(alloc, "open-ended"),
    }
}

fn head_of(alloc: Global, case: &Case<'_>) -> Result<String> {
    let bytes = case.bytes(alloc, "bytes")?;
    head(alloc, bytes.as_slice())
}

fn whole(alloc: Global, case: &Case<'_>) -> Result<String> {
    let bytes = case.bytes(alloc, "bytes")?;
    match whole_at(bytes.as_slice()) {
        Some((head, size)) => Ok(format!(in alloc; "head {head} size {size}")?),
        None => told::text(alloc, "none"),
    }
}

fn item(alloc: Global, kind: &[u8; 4], at: u64, body_at: u64, size: u64) -> Result<String> {
    let kind = kind_text(alloc, kind)?;
    Ok(format!(in alloc; "{kind} at {at} body {body_at} size {size}\n")?)
}

fn child_text(alloc: Global, child: Child) -> Result<String> {
    match child {
        Child::Item {
            kind,
            at,
            body_at,
            size,
        } => item(alloc, &kind, at, body_at, size),
        Child::Done => told::text(alloc, "done\n"),
        Child::Bad { at } => Ok(format!(in alloc; "bad at {at}\n")?),
    }
}

fn push_child(alloc: Global, out: &mut String, child: Child) -> Result<()> {
    let text = child_text(alloc, child)?;
    out.push_str(text.as_str())?;
    Ok(())
}

// What so many calls give, one after the other.
fn children_in(alloc: Global, body: &[u8], calls: u64) -> Result<String> {
    let mut children = Children::new(body);
    let mut all = String::new(alloc);
    for _ in 0..calls {
        push_child(alloc, &mut all, children.next())?;
    }
    Ok(all)
}

fn children(alloc: Global, case: &Case<'_>) -> Result<String> {
    let body = case.bytes(alloc, "body")?;
    let calls = case.number(alloc, "calls")?;
    let all = children_in(alloc, body.as_slice(), calls)?;
    Ok(told_text(alloc, case, all.as_str())?)
}

// How often a box was found.
fn times(found: &Found<'_>) -> &'static str {
    match (found.some, found.twice) {
        (false, false) => "absent",
        (true, false) => "once",
        (true, true) => "twice",
        (false, true) => "only twice",
    }
}

fn found_text(alloc: Global, found: &Found<'_>) -> Result<String> {
    let times = times(found);
    let first = hex(alloc, found.first)?;
    Ok(format!(in alloc; "{times} {first}")?)
}

fn kind_found(alloc: Global, case: &Case<'_>) -> Result<String> {
    let kind = kind_said(alloc, case)?;
    let body = case.bytes(alloc, "body")?;
    match find_kind(body.as_slice(), &kind) {
        Some(found) => found_text(alloc, &found),
        None => told::text(alloc, "no boxes"),
    }
}

fn found_in(alloc: Global, user: &[u8], kind: &[u8; 4], body: &[u8]) -> Result<String> {
    let Some((user, _)) = user.split_first_chunk::<16>() else {
        bail!("a user type has not 16 bytes");
    };
    let mut found = Found::new();
    found.add_user(user, kind, body);
    found_text(alloc, &found)
}

fn user_found(alloc: Global, case: &Case<'_>) -> Result<String> {
    let kind = kind_said(alloc, case)?;
    let body = case.bytes(alloc, "body")?;
    let user = case.bytes(alloc, "user")?;
    found_in(alloc, user.as_slice(), &kind, body.as_slice())
}

fn put(alloc: Global, case: &Case<'_>) -> Result<String> {
    let kind = kind_said(alloc, case)?;
    let body = case.bytes(alloc, "body")?;
    if body.len() > 1_000_000 {
        bail!("a body is too large");
    }
    let text = put_box(alloc, kind, body.as_slice())?;
    Ok(told_bytes(alloc, case, text.as_slice())?)
}

fn append(bytes: &mut Vec<u8>, key: &str, words: &Words) -> Result<()> {
    match key {
        "u32" => append_u32(bytes, words.short(0)?)?,
        "u64" => append_u64(bytes, words.number(0)?)?,
        _ => {}
    }
    Ok(())
}

// Numbers that are appended one behind the other.
fn appended(alloc: Global, case: &Case<'_>) -> Result<String> {
    let mut bytes = Vec::new(alloc);
    for line in case.lines() {
        let words = case.words(alloc, line)?;
        append(&mut bytes, line.key(), &words)?;
    }
    Ok(told_bytes(alloc, case, bytes.as_slice())?)
}

fn short_in(bytes: &[u8], at: usize) -> Result<u32> {
    if bytes.len() < 4 || at > bytes.len() - 4 {
        bail!("a number lies outside");
    }
    Ok(u32_at(bytes, at))
}

fn short_at(alloc: Global, case: &Case<'_>) -> Result<String> {
    let at = usize::try_from(case.number(alloc, "at")?)?;
    let bytes = case.bytes(alloc, "bytes")?;
    let number = short_in(bytes.as_slice(), at)?;
    Ok(format!(in alloc; "{number}")?)
}

fn long_in(bytes: &[u8], at: usize) -> Result<u64> {
    if bytes.len() < 8 || at > bytes.len() - 8 {
        bail!("a number lies outside");
    }
    Ok(u64_at(bytes, at))
}

fn long_at(alloc: Global, case: &Case<'_>) -> Result<String> {
    let at = usize::try_from(case.number(alloc, "at")?)?;
    let bytes = case.bytes(alloc, "bytes")?;
    let number = long_in(bytes.as_slice(), at)?;
    Ok(format!(in alloc; "{number}")?)
}

/// What a call of `sm_box` gives.
pub fn answer(alloc: Global, case: &Case<'_>) -> Result<String> {
    match case.call() {
        "sm_box BoxHead::read" => head_of(alloc, case),
        "sm_box whole_at" => whole(alloc, case),
        "sm_box Children::next" => children(alloc, case),
        "sm_box find_kind" => kind_found(alloc, case),
        "sm_box Found::add_user" => user_found(alloc, case),
        "sm_box put_box" => put(alloc, case),
        "sm_box append" => appended(alloc, case),
        "sm_box u32_at" => short_at(alloc, case),
        "sm_box u64_at" => long_at(alloc, case),
        _ => bail!("no such call"),
    }
}
