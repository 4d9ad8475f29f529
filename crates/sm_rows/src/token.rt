//! The words of an expression.
use crate::RowFault;
use std::alloc::Global;

// A word, or a text in quotes.
#[derive(Debug, Drop)]
pub(crate) struct Token {
    pub(crate) bytes: Vec<u8>,
    pub(crate) quoted: bool,
}

impl Token {
    pub(crate) fn copy(&self, alloc: Global) -> Result<Token, RowFault> {
        Ok(Token {
            bytes: Vec::from_slice(alloc, self.bytes.as_slice())?,
            quoted: self.quoted,
        })
    }

    // The word, or nothing where it is a text in quotes.
    pub(crate) fn word(&self) -> Option<&str> {
        if self.quoted {
            return None;
        }
        str::from_utf8(self.bytes.as_slice()).ok()
    }

    // Whether it is this word.
    pub(crate) fn is(&self, word: &str) -> bool {
        self.word() == Some(word)
    }
}

#[derive(Clone, Copy)]
enum State {
    Blank,
    Word,
    Quoted,
    Escaped,
    High,
    Low(u8),
}

#[derive(Drop)]
struct Lexer {
    alloc: Global,
    tokens: Vec<Token>,
    held: Vec<u8>,
    state: State,
}

// The value of a hexadecimal digit.
fn digit(byte: u8) -> Option<u8> {
    match byte {
        b'0'..=b'9' => Some(byte - b'0'),
        b'a'..=b'f' => Some(byte - b'a' + 10),
        b'A'..=b'F' => Some(byte - b'A' + 10),
        _ => None,
    }
}

fn escaped(byte: u8) -> Option<u8> {
    match byte {
        b'n' => Some(b'\n'),
        b'r' => Some(b'\r'),
        b't' => Some(b'\t'),
        b'0' => Some(0),
        b'"' => Some(b'"'),
        b'\\' => Some(b'\\'),
        _ => None,
    }
}

impl Lexer {
    // Ends the word or the text that is held.
    fn end(&mut self, quoted: bool) -> Result<(), RowFault> {
        let held = std::mem::replace(&mut self.held, Vec::new(self.alloc));
        self.tokens.push(Token {
            bytes: held,
            quoted,
        })?;
        self.state = State::Blank;
        Ok(())
    }

    // Takes a byte outside of quotes.
    fn outside(&mut self, byte: u8, within: bool) -> Result<(), RowFault> {
        let ends = matches!(byte, b' ' | b'\t' | b'"' | b'(' | b')');
        if ends && within {
            self.end(false)?;
        }
        match byte {
            b' ' | b'\t' => {}
            b'"' => self.state = State::Quoted,
            b'(' | b')' => {
                self.held.push(byte)?;
                self.end(false)?;
            }
            _ => {
                self.held.push(byte)?;
                self.state = State::Word;
            }
        }
        Ok(())
    }

    // Takes a byte of what stands behind a backslash; false where it has no meaning there.
    fn escape(&mut self, byte: u8) -> Result<bool, RowFault> {
        if byte == b'x' {
            self.state = State::High;
            return Ok(true);
        }
        let Some(meant) = escaped(byte) else {
            return Ok(false);
        };
        self.held.push(meant)?;
        self.state = State::Quoted;
        Ok(true)
    }

    // Takes a digit of a byte in hexadecimal; false where it is none.
    fn nibble(&mut self, byte: u8, high: Option<u8>) -> Result<bool, RowFault> {
        let Some(low) = digit(byte) else {
            return Ok(false);
        };
        match high {
            None => self.state = State::Low(low),
            Some(high) => {
                self.held.push(high.wrapping_mul(16).wrapping_add(low))?;
                self.state = State::Quoted;
            }
        }
        Ok(true)
    }

    // Takes a byte; false where it may not stand there.
    fn take(&mut self, byte: u8) -> Result<bool, RowFault> {
        match self.state {
            State::Blank => self.outside(byte, false)?,
            State::Word => self.outside(byte, true)?,
            State::Quoted => match byte {
                b'"' => self.end(true)?,
                b'\\' => self.state = State::Escaped,
                _ => self.held.push(byte)?,
            },
            State::Escaped => return self.escape(byte),
            State::High => return self.nibble(byte, None),
            State::Low(high) => return self.nibble(byte, Some(high)),
        }
        Ok(true)
    }
}

// The words of a value that stands in this line.
pub(crate) fn tokens_of(alloc: Global, line: u64, text: &str) -> Result<Vec<Token>, RowFault> {
    let mut lexer = Lexer {
        alloc,
        tokens: Vec::new(alloc),
        held: Vec::new(alloc),
        state: State::Blank,
    };
    for byte in text.as_bytes() {
        if !lexer.take(*byte)? {
            return Err(RowFault::new(line, "an escape of no meaning"));
        }
    }
    if !lexer.take(b' ')? || !matches!(lexer.state, State::Blank) {
        return Err(RowFault::new(line, "a text without an end"));
    }
    Ok(lexer.tokens)
}
