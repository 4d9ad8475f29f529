//! A row, with the names that its values cite.
use crate::parts::hex;
use crate::{Line, Page, Row, RowFault, Words};
use std::alloc::Global;

/// A row of a page.
#[derive(Clone, Copy)]
pub struct Case<'a> {
    pub(crate) page: &'a Page,
    pub(crate) row: &'a Row,
}

impl<'a> Case<'a> {
    /// What the row shows, in plain words.
    pub fn name(&self) -> &'a str {
        self.row.name.as_str()
    }

    /// The call to be made. It is empty where the row says none.
    pub fn call(&self) -> &'a str {
        self.row.call.as_str()
    }

    /// The lines of the row, in order.
    pub fn lines(&self) -> &'a [Line] {
        self.row.lines.as_slice()
    }

    /// Says what is wrong with this row.
    pub fn fault(&self, what: &'static str) -> RowFault {
        RowFault::new(self.row.number, what)
    }

    /// The first line with this key.
    pub fn line(&self, key: &str) -> Result<&'a Line, RowFault> {
        for line in self.lines() {
            if line.key() == key {
                return Ok(line);
            }
        }
        Err(self.fault("a line is missing"))
    }

    /// Whether there is a line with this key.
    pub fn has(&self, key: &str) -> bool {
        self.line(key).is_ok()
    }

    /// The words of a line.
    pub fn words(&self, alloc: Global, line: &Line) -> Result<Words, RowFault> {
        self.page.words(alloc, line.number, line.value())
    }

    /// The words of the first line with this key.
    pub fn words_of(&self, alloc: Global, key: &str) -> Result<Words, RowFault> {
        self.words(alloc, self.line(key)?)
    }

    /// The bytes that the first line with this key says.
    pub fn bytes(&self, alloc: Global, key: &str) -> Result<Vec<u8>, RowFault> {
        self.words_of(alloc, key)?.bytes(alloc, 0)
    }

    /// The number that the first line with this key says.
    pub fn number(&self, alloc: Global, key: &str) -> Result<u64, RowFault> {
        self.words_of(alloc, key)?.number(0)
    }

    // What a line says that the call has to give, where it says so.
    fn wanted_by(&self, alloc: Global, line: &Line) -> Result<Option<String>, RowFault> {
        let wanted = match line.key() {
            "gives" => String::from_str(alloc, line.value())?,
            "gives-hex" => hex(alloc, self.words(alloc, line)?.bytes(alloc, 0)?.as_slice())?,
            "gives-text" => match String::from_utf8(self.words(alloc, line)?.bytes(alloc, 0)?) {
                Ok(text) => text,
                Err(_) => return Err(line.fault("what is to come is no text")),
            },
            _ => return Ok(None),
        };
        Ok(Some(wanted))
    }

    /// What the call has to give.
    pub fn wanted(&self, alloc: Global) -> Result<String, RowFault> {
        let mut all = String::new(alloc);
        let mut is_first = true;
        for line in self.lines() {
            if let Some(wanted) = self.wanted_by(alloc, line)? {
                if !is_first {
                    all.push('\n')?;
                }
                is_first = false;
                all.push_str(wanted.as_str())?;
            }
        }
        if is_first {
            return Err(self.fault("the row says nothing that is to come"));
        }
        Ok(all)
    }

    /// How what the call gave differs from what it has to give: a line to print, or nothing. Line feeds at the end of
    /// either do not count.
    pub fn difference(&self, alloc: Global, gave: &str) -> Result<Option<String>, RowFault> {
        let wanted = self.wanted(alloc)?;
        let gave = gave.trim_end_matches('\n');
        let wanted = wanted.as_str().trim_end_matches('\n');
        if gave == wanted {
            return Ok(None);
        }
        let name = self.name();
        Ok(Some(format!(in alloc; "{name}: gave {gave} wanted {wanted}\n")?))
    }
}
