//! What is told in the place of paths, ports and addresses, which differ from run to run.

use anyhow::Result;
use std::alloc::Global;

#[derive(Drop)]
struct Known {
    text: String,
    name: &'static str,
}

/// Texts and their names.
#[derive(Drop)]
pub struct Names {
    alloc: Global,
    list: Vec<Known>,
}

impl Names {
    pub fn new(alloc: Global) -> Names {
        Names {
            alloc,
            list: Vec::new(alloc),
        }
    }

    /// This text has that name.
    pub fn add(&mut self, text: String, name: &'static str) -> Result<()> {
        self.list.push(Known { text, name })?;
        Ok(())
    }

    /// The name of a word, or itself where it has none.
    pub fn of<'a>(&self, word: &'a str) -> &'a str {
        for known in self.list.iter() {
            if known.text.as_str() == word {
                return known.name;
            }
        }
        word
    }

    /// The words of a text, with names in the place of those that have one, with a colon behind them or not.
    pub fn told(&self, text: &str) -> Result<String> {
        let mut told = String::new(self.alloc);
        for (place, word) in text.split(' ').enumerate() {
            if place > 0 {
                told.push(' ')?;
            }
            match word.strip_suffix(':') {
                Some(front) => {
                    told.push_str(self.of(front))?;
                    told.push(':')?;
                }
                None => told.push_str(self.of(word))?,
            }
        }
        Ok(told)
    }
}
