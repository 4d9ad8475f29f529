//! The lines of a text of rows.
use crate::RowFault;
use std::alloc::Global;

/// A key and its value.
#[derive(Debug, Drop)]
pub struct Line {
    pub(crate) number: u64,
    pub(crate) key: String,
    pub(crate) value: String,
}

impl Line {
    // The key and the value of a text.
    pub(crate) fn read(alloc: Global, number: u64, text: &str) -> Result<Line, RowFault> {
        let (key, value) = match text.split_once(' ') {
            Some((key, value)) => (key, value),
            None => (text, ""),
        };
        Ok(Line {
            number,
            key: String::from_str(alloc, key)?,
            value: String::from_str(alloc, value)?,
        })
    }

    // The same line once more.
    pub(crate) fn copy(&self, alloc: Global) -> Result<Line, RowFault> {
        Ok(Line {
            number: self.number,
            key: String::from_str(alloc, self.key.as_str())?,
            value: String::from_str(alloc, self.value.as_str())?,
        })
    }

    /// The first word of the line. It is empty in a blank line.
    pub fn key(&self) -> &str {
        self.key.as_str()
    }

    /// What stands behind the key.
    pub fn value(&self) -> &str {
        self.value.as_str()
    }

    // Whether it says what is to come.
    pub(crate) fn is_wanted(&self) -> bool {
        matches!(self.key(), "gives" | "gives-hex" | "gives-text")
    }

    /// Says what is wrong with this line.
    pub fn fault(&self, what: &'static str) -> RowFault {
        RowFault::new(self.number, what)
    }
}

// The lines of a text, without comments, and each with those that go on with it.
pub(crate) fn lines_of(alloc: Global, text: &str) -> Result<Vec<Line>, RowFault> {
    let mut lines: Vec<Line> = Vec::new(alloc);
    let mut number = 0u64;
    for text in text.lines() {
        number = number.saturating_add(1);
        if text.starts_with('#') {
            continue;
        }
        if text.starts_with(' ') {
            match lines.last_mut() {
                Some(last) => last.value.push_str(text)?,
                None => return Err(RowFault::new(number, "there is no line to go on with")),
            }
        } else {
            lines.push(Line::read(alloc, number, text)?)?;
        }
    }
    Ok(lines)
}
