//! The bytes of an expression.
use crate::RowFault;
use crate::token::Token;
use hex::FromHexError;
use std::alloc::Global;

// What becomes of the bytes between parentheses.
#[derive(Clone, Copy, Debug)]
enum Form {
    Plain,
    // A box, with a size of 32 or of 64 bits.
    Box([u8; 4]),
    Wide([u8; 4]),
    Repeat(u64),
    Numbered(u64),
    // Over the bytes at this place.
    At(u64),
}

// What stands in front of an open parenthesis.
#[derive(Debug, Drop)]
struct Group {
    form: Form,
    front: Vec<u8>,
}

#[derive(Drop)]
struct Builder<'a> {
    alloc: Global,
    line: u64,
    rest: &'a [Token],
    groups: Vec<Group>,
    bytes: Vec<u8>,
    // Whether digits are read, as behind `hex`.
    digits: bool,
}

impl Builder<'_> {
    fn fault(&self, what: &'static str) -> RowFault {
        RowFault::new(self.line, what)
    }

    fn next_word(&mut self) -> Result<&str, RowFault> {
        let Some((word, rest)) = self.rest.split_first() else {
            return Err(RowFault::new(self.line, "an expression ends too early"));
        };
        self.rest = rest;
        match word.word() {
            Some(text) => Ok(text),
            None => Err(RowFault::new(self.line, "a text where a word belongs")),
        }
    }

    fn number(&mut self) -> Result<u64, RowFault> {
        match self.next_word()?.parse::<u64>() {
            Ok(number) => Ok(number),
            Err(_) => Err(self.fault("a number is none")),
        }
    }

    // Appends the last bytes of a number.
    fn append_number(&mut self, width: usize) -> Result<(), RowFault> {
        let number = self.number()?;
        let bytes = number.to_be_bytes();
        let (front, kept) = bytes.split_at(8usize.saturating_sub(width));
        if front.iter().any(|byte| *byte != 0) {
            return Err(self.fault("a number is too large"));
        }
        self.bytes.extend_from_slice(kept)?;
        Ok(())
    }

    fn open(&mut self, form: Form) -> Result<(), RowFault> {
        let front = std::mem::replace(&mut self.bytes, Vec::new(self.alloc));
        self.groups.push(Group { form, front })?;
        Ok(())
    }

    // Opens the parenthesis that has to come.
    fn open_next(&mut self, form: Form) -> Result<(), RowFault> {
        if self.next_word()? == "(" {
            self.open(form)
        } else {
            Err(self.fault("a parenthesis is missing"))
        }
    }

    fn open_box(&mut self, is_wide: bool) -> Result<(), RowFault> {
        let kind = match self.next_word()?.as_bytes() {
            [a, b, c, d] => Some([*a, *b, *c, *d]),
            _ => None,
        };
        let Some(kind) = kind else {
            return Err(self.fault("a kind of box has not four letters"));
        };
        self.open_next(if is_wide {
            Form::Wide(kind)
        } else {
            Form::Box(kind)
        })
    }

    // Closes the last parenthesis.
    fn close(&mut self) -> Result<(), RowFault> {
        let Some(group) = self.groups.pop() else {
            return Err(self.fault("a parenthesis closes nothing"));
        };
        let Group { form, front } = group;
        let within = std::mem::replace(&mut self.bytes, front);
        let out = &mut self.bytes;
        let done = match form {
            Form::Plain => {
                out.extend_from_slice(within.as_slice())?;
                true
            }
            Form::Box(kind) => append_box(out, kind, within.as_slice())?,
            Form::Wide(kind) => append_wide(out, kind, within.as_slice())?,
            Form::Repeat(times) => append_repeated(out, times, within.as_slice())?,
            Form::Numbered(turns) => append_numbered(self.alloc, out, turns, within.as_slice())?,
            Form::At(place) => put_at(out, place, within.as_slice()),
        };
        if done {
            Ok(())
        } else {
            Err(self.fault("bytes do not fit"))
        }
    }

    fn cut(&mut self) -> Result<(), RowFault> {
        match usize::try_from(self.number()?) {
            Ok(left) if left <= self.bytes.len() => {
                self.bytes.truncate(left);
                Ok(())
            }
            _ => Err(self.fault("there are not as many bytes")),
        }
    }

    fn skip(&mut self) -> Result<(), RowFault> {
        let dropped = usize::try_from(self.number()?).ok();
        let kept = match dropped {
            Some(dropped) => self.bytes.as_slice().get(dropped..),
            None => None,
        };
        let Some(kept) = kept else {
            return Err(self.fault("there are not as many bytes"));
        };
        self.bytes = Vec::from_slice(self.alloc, kept)?;
        Ok(())
    }

    // Appends digits behind `hex`.
    fn append_digits(&mut self, word: &str) -> Result<(), RowFault> {
        match hex::decode(self.alloc, word) {
            Ok(bytes) => Ok(self.bytes.extend_from_slice(bytes.as_slice())?),
            Err(FromHexError::OutOfMemory) => Err(RowFault::NoMemory),
            Err(FromHexError::OddLength) => Err(self.fault("half a byte")),
            Err(_) => Err(self.fault("a word of no meaning")),
        }
    }

    fn zeros(&mut self) -> Result<(), RowFault> {
        let count = self.number()?;
        for _ in 0..count {
            self.bytes.push(0)?;
        }
        Ok(())
    }

    // A form with a number in front.
    fn open_counted(&mut self, word: &str) -> Result<(), RowFault> {
        let number = self.number()?;
        self.open_next(match word {
            "repeat" => Form::Repeat(number),
            "numbered" => Form::Numbered(number),
            _ => Form::At(number),
        })
    }

    // Takes a word.
    fn take(&mut self, word: &str) -> Result<(), RowFault> {
        let digits = self.digits;
        self.digits = false;
        match word {
            "(" => self.open(Form::Plain),
            ")" => self.close(),
            "u8" => self.append_number(1),
            "u16" => self.append_number(2),
            "u32" => self.append_number(4),
            "u64" => self.append_number(8),
            "zeros" => self.zeros(),
            "box" => self.open_box(false),
            "wide" => self.open_box(true),
            "repeat" | "numbered" | "at" => self.open_counted(word),
            "cut" => self.cut(),
            "skip" => self.skip(),
            "hex" => {
                self.digits = true;
                Ok(())
            }
            _ if digits => {
                self.digits = true;
                self.append_digits(word)
            }
            _ => Err(self.fault("a word of no meaning")),
        }
    }

    // Takes the next word or text, where there is one.
    fn step(&mut self) -> Result<(), RowFault> {
        let Some((token, rest)) = self.rest.split_first() else {
            return Ok(());
        };
        self.rest = rest;
        match token.word() {
            Some(word) => self.take(word),
            None => {
                self.digits = false;
                self.bytes.extend_from_slice(token.bytes.as_slice())?;
                Ok(())
            }
        }
    }
}

// Appends a box; false where it is too large.
fn append_box(out: &mut Vec<u8>, kind: [u8; 4], body: &[u8]) -> Result<bool, RowFault> {
    let Ok(size) = u32::try_from(body.len().saturating_add(8)) else {
        return Ok(false);
    };
    out.extend_from_slice(&size.to_be_bytes())?;
    out.extend_from_slice(&kind)?;
    out.extend_from_slice(body)?;
    Ok(true)
}

fn append_wide(out: &mut Vec<u8>, kind: [u8; 4], body: &[u8]) -> Result<bool, RowFault> {
    let size = (body.len() as u64).saturating_add(16);
    out.extend_from_slice(&1u32.to_be_bytes())?;
    out.extend_from_slice(&kind)?;
    out.extend_from_slice(&size.to_be_bytes())?;
    out.extend_from_slice(body)?;
    Ok(true)
}

fn append_repeated(out: &mut Vec<u8>, times: u64, body: &[u8]) -> Result<bool, RowFault> {
    for _ in 0..times {
        out.extend_from_slice(body)?;
    }
    Ok(true)
}

// Appends the bytes, with the number of the turn in the place of each `#`.
fn append_turn(alloc: Global, out: &mut Vec<u8>, turn: u64, body: &[u8]) -> Result<(), RowFault> {
    let number = format!(in alloc; "{turn}")?;
    for byte in body {
        if *byte == b'#' {
            out.extend_from_slice(number.as_bytes())?;
        } else {
            out.push(*byte)?;
        }
    }
    Ok(())
}

fn append_numbered(
    alloc: Global,
    out: &mut Vec<u8>,
    turns: u64,
    body: &[u8],
) -> Result<bool, RowFault> {
    for turn in 0..turns {
        append_turn(alloc, out, turn, body)?;
    }
    Ok(true)
}

// Puts bytes over those at a place; false where they do not lie within.
fn put_at(out: &mut [u8], place: u64, new: &[u8]) -> bool {
    let Ok(place) = usize::try_from(place) else {
        return false;
    };
    let Some((_, behind)) = out.split_at_mut_checked(place) else {
        return false;
    };
    let Some((old, _)) = behind.split_at_mut_checked(new.len()) else {
        return false;
    };
    old.copy_from_slice(new);
    true
}

// The bytes of an expression that stands in this line.
pub(crate) fn bytes_of(alloc: Global, line: u64, tokens: &[Token]) -> Result<Vec<u8>, RowFault> {
    let mut builder = Builder {
        alloc,
        line,
        rest: tokens,
        groups: Vec::new(alloc),
        bytes: Vec::new(alloc),
        digits: false,
    };
    for _ in 0..tokens.len() {
        builder.step()?;
    }
    if builder.groups.is_empty() {
        Ok(builder.bytes)
    } else {
        Err(RowFault::new(line, "a parenthesis is not closed"))
    }
}
