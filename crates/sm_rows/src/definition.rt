//! What a `let` says, and what is put in the place of its name.
use crate::RowFault;
use crate::token::Token;
use std::alloc::Global;

// A name, its parameters, and the words that it stands for.
#[derive(Debug, Drop)]
pub(crate) struct Definition {
    pub(crate) name: Vec<u8>,
    pub(crate) parameters: Vec<Token>,
    pub(crate) body: Vec<Token>,
}

impl Definition {
    // The argument that stands for this word, where it is a parameter.
    fn argument<'a>(&self, word: &Token, arguments: &'a [Token]) -> Option<&'a Token> {
        let mut at = arguments.iter();
        for parameter in self.parameters.iter() {
            let argument = at.next()?;
            if !word.quoted && word.bytes.as_slice() == parameter.bytes.as_slice() {
                return Some(argument);
            }
        }
        None
    }

    // Appends the words that it stands for with these arguments.
    fn expand(
        &self,
        alloc: Global,
        arguments: &[Token],
        out: &mut Vec<Token>,
    ) -> Result<(), RowFault> {
        for word in self.body.iter() {
            match self.argument(word, arguments) {
                Some(argument) => out.push(argument.copy(alloc)?)?,
                None => out.push(word.copy(alloc)?)?,
            }
        }
        Ok(())
    }
}

// What a word names, where it begins with a dollar.
fn named<'a>(definitions: &'a [Definition], word: &Token) -> Option<Option<&'a Definition>> {
    if word.quoted {
        return None;
    }
    let name = word.bytes.as_slice().strip_prefix(b"$")?;
    for definition in definitions {
        if definition.name.as_slice() == name {
            return Some(Some(definition));
        }
    }
    Some(None)
}

// These words, with what names stand for in their place.
pub(crate) fn expanded(
    alloc: Global,
    line: u64,
    definitions: &[Definition],
    words: &[Token],
) -> Result<Vec<Token>, RowFault> {
    let mut out = Vec::new(alloc);
    let mut rest = words;
    for _ in 0..words.len() {
        let Some((word, behind)) = rest.split_first() else {
            break;
        };
        rest = behind;
        match named(definitions, word) {
            None => out.push(word.copy(alloc)?)?,
            Some(None) => return Err(RowFault::new(line, "a name that nothing stands for")),
            Some(Some(definition)) => {
                let Some((arguments, behind)) = rest.split_at_checked(definition.parameters.len())
                else {
                    return Err(RowFault::new(line, "an argument is missing"));
                };
                rest = behind;
                definition.expand(alloc, arguments, &mut out)?;
            }
        }
    }
    Ok(out)
}
