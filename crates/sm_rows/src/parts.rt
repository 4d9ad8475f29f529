//! How bytes and texts are told.
use crate::{Case, Line, RowFault};
use hex::encode;
use std::alloc::Global;

/// The bytes in lower-case hexadecimal digits.
pub fn hex(alloc: Global, bytes: &[u8]) -> Result<String, RowFault> {
    Ok(encode(alloc, bytes)?)
}

// How a value is told.
#[derive(Clone, Copy)]
enum Manner {
    Digits,
    Text,
}

fn whole(alloc: Global, manner: Manner, bytes: &[u8]) -> Result<String, RowFault> {
    match manner {
        Manner::Digits => hex(alloc, bytes),
        Manner::Text => Ok(String::from_str(alloc, str::from_utf8(bytes).unwrap_or("no text"))?),
    }
}

// The bytes of the part that a line names by a word and a number.
fn cut<'a>(line: &Line, word: &str, number: u64, bytes: &'a [u8]) -> Result<&'a [u8], RowFault> {
    let count = usize::try_from(number).unwrap_or(usize::MAX);
    let cut = match word {
        "first" => bytes.get(..count),
        "last" => match bytes.len().checked_sub(count) {
            Some(at) => bytes.get(at..),
            None => None,
        },
        "from" => bytes.get(count..),
        _ => return Err(line.fault("a part of no meaning")),
    };
    match cut {
        Some(cut) => Ok(cut),
        None => Err(line.fault("there are not as many bytes")),
    }
}

fn part(
    alloc: Global,
    case: &Case<'_>,
    line: &Line,
    manner: Manner,
    bytes: &[u8],
) -> Result<String, RowFault> {
    let words = case.words(alloc, line)?;
    let word = words.text(0)?;
    if word == "length" {
        let length = bytes.len();
        return Ok(format!(in alloc; "{length}")?);
    }
    let first = cut(line, word, words.number(1)?, bytes)?;
    if words.len() < 4 {
        return whole(alloc, manner, first);
    }
    let second = cut(line, words.text(2)?, words.number(3)?, first)?;
    whole(alloc, manner, second)
}

fn parts(alloc: Global, case: &Case<'_>, manner: Manner, bytes: &[u8]) -> Result<String, RowFault> {
    let mut all = String::new(alloc);
    let mut is_whole = true;
    for line in case.lines() {
        if line.key() == "part" {
            let text = part(alloc, case, line, manner, bytes)?;
            all.push_str(text.as_str())?;
            all.push('\n')?;
            is_whole = false;
        }
    }
    if is_whole {
        return whole(alloc, manner, bytes);
    }
    Ok(all)
}

/// Tells bytes in hexadecimal digits, as the row asks for them: whole, or a line for each of its lines `part length`,
/// `part first N`, `part last N` and `part from N`. Of a part there may be one more, as in `part from N first M`.
pub fn told(alloc: Global, case: &Case<'_>, bytes: &[u8]) -> Result<String, RowFault> {
    parts(alloc, case, Manner::Digits, bytes)
}

/// Tells a text, whole or in parts, as it stands.
pub fn told_text(alloc: Global, case: &Case<'_>, text: &str) -> Result<String, RowFault> {
    parts(alloc, case, Manner::Text, text.as_bytes())
}
