//! How a journal is told.

use crate::names::Names;
use anyhow::Result;
use std::alloc::Global;

// The first one below which a time is soon, in seconds. A store of so few files as a row has is opened in less than one.
const SOON: u64 = 60;

// Whether it is a number below this, with three digits behind a point.
fn is_seconds(word: &str, below: u64) -> bool {
    let Some((whole, part)) = word.split_once('.') else {
        return false;
    };
    let Ok(whole) = whole.parse::<u64>() else {
        return false;
    };
    whole < below && part.len() == 3 && part.parse::<u64>().is_ok()
}

// Whether it is soon, in milliseconds.
fn is_millis(word: &str) -> bool {
    match word.parse::<u64>() {
        Ok(millis) => millis < SOON * 1_000,
        Err(_) => false,
    }
}

// What the next word of a line is.
#[derive(Clone, Copy)]
enum Next {
    Seconds,
    Millis,
    Other,
}

impl Next {
    // Behind this word at a place of a line that begins with its kind.
    fn behind(kind: &str, place: usize, word: &str) -> Next {
        match word {
            "seconds" => Next::Seconds,
            "longest" => Next::Millis,
            _ if place == 4 && (kind == "reply" || kind == "push") => Next::Millis,
            _ => Next::Other,
        }
    }

    // Whether this word, as the next one, is a time that is soon.
    fn is_soon(self, kind: &str, word: &str) -> bool {
        match self {
            Next::Seconds => is_seconds(word, if kind == "start" { 1 } else { SOON }),
            Next::Millis => is_millis(word),
            Next::Other => false,
        }
    }
}

// Tells what stands behind the moment of a line: `soon` for each such time, and the names of what has one.
fn tell_rest(names: &Names, rest: &str, told: &mut String) -> Result<()> {
    let kind = rest.split(' ').next().unwrap_or("");
    let mut next = Next::Other;
    for (place, word) in rest.split(' ').enumerate() {
        if place > 0 {
            told.push(' ')?;
        }
        told.push_str(if next.is_soon(kind, word) {
            "soon"
        } else {
            names.of(word)
        })?;
        next = Next::behind(kind, place, word);
    }
    Ok(())
}

/// Tells the lines of a journal, without their moments. A line that doesn't begin with one is told whole.
pub fn told(alloc: Global, names: &Names, journal: &str) -> Result<String> {
    let mut told = String::new(alloc);
    for line in journal.lines() {
        match line.split_once(' ') {
            Some((moment, rest)) if is_seconds(moment, u64::MAX) => tell_rest(
                names, rest, &mut told,
            )?,
            _ => told.push_str(line)?,
        }
        told.push('\n')?;
    }
    Ok(told)
}
