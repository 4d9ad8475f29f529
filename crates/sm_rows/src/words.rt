//! The words of a value.
use crate::RowFault;
use crate::expression::bytes_of;
use crate::token::Token;
use std::alloc::Global;

/// The words of a value, with what names stand for in their place.
#[derive(Debug, Drop)]
pub struct Words {
    pub(crate) line: u64,
    pub(crate) tokens: Vec<Token>,
}

impl Words {
    /// How many words and texts there are.
    pub fn len(&self) -> usize {
        self.tokens.len()
    }

    /// Whether there are none.
    pub fn is_empty(&self) -> bool {
        self.tokens.is_empty()
    }

    /// Says what is wrong with these words.
    pub fn fault(&self, what: &'static str) -> RowFault {
        RowFault::new(self.line, what)
    }

    /// The bytes of one word or text.
    pub fn raw(&self, at: usize) -> Result<&[u8], RowFault> {
        match self.tokens.get(at) {
            Some(token) => Ok(token.bytes.as_slice()),
            None => Err(self.fault("a word is missing")),
        }
    }

    /// One word, or the text in quotes at its place.
    pub fn text(&self, at: usize) -> Result<&str, RowFault> {
        match str::from_utf8(self.raw(at)?) {
            Ok(text) => Ok(text),
            Err(_) => Err(self.fault("a word is no text")),
        }
    }

    /// A number in decimal digits.
    pub fn number(&self, at: usize) -> Result<u64, RowFault> {
        match self.text(at)?.parse::<u64>() {
            Ok(number) => Ok(number),
            Err(_) => Err(self.fault("a number is none")),
        }
    }

    /// A number below 2^32.
    pub fn short(&self, at: usize) -> Result<u32, RowFault> {
        match u32::try_from(self.number(at)?) {
            Ok(number) => Ok(number),
            Err(_) => Err(self.fault("a number is too large")),
        }
    }

    /// A number below 2^32, or nothing for `-`.
    pub fn optional(&self, at: usize) -> Result<Option<u32>, RowFault> {
        if self.text(at)? == "-" {
            Ok(None)
        } else {
            Ok(Some(self.short(at)?))
        }
    }

    /// The bytes of the expression that begins with the word at this place and goes to the end.
    pub fn bytes(&self, alloc: Global, from: usize) -> Result<Vec<u8>, RowFault> {
        match self.tokens.as_slice().get(from..) {
            Some(tokens) => bytes_of(alloc, self.line, tokens),
            None => Err(self.fault("a word is missing")),
        }
    }
}
