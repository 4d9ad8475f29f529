//! What the steps of a row tell.
use crate::parts::hex;
use anyhow::Result;
use std::alloc::Global;

/// The lines that were told so far, and how many disk calls there were when they were last told.
#[derive(Drop)]
pub struct Tale {
    alloc: Global,
    text: String,
    is_begun: bool,
    calls: u64,
}

impl Tale {
    pub fn new(alloc: Global) -> Tale {
        Tale {
            alloc,
            text: String::new(alloc),
            is_begun: false,
            calls: 0,
        }
    }

    /// Tells a line.
    pub fn say(&mut self, line: &str) -> Result<()> {
        if self.is_begun {
            self.text.push('\n')?;
        }
        self.is_begun = true;
        self.text.push_str(line)?;
        Ok(())
    }

    /// Tells a number.
    pub fn count(&mut self, number: u64) -> Result<()> {
        let line = format!(in self.alloc; "{number}")?;
        self.say(line.as_str())
    }

    /// Tells bytes in hexadecimal digits.
    pub fn bytes(&mut self, bytes: &[u8]) -> Result<()> {
        let line = hex(self.alloc, bytes)?;
        self.say(line.as_str())
    }

    /// Tells a text as it stands, and other bytes in hexadecimal digits.
    pub fn text(&mut self, bytes: &[u8]) -> Result<()> {
        match str::from_utf8(bytes) {
            Ok(text) => self.say(text),
            Err(_) => self.bytes(bytes),
        }
    }

    /// Tells how many disk calls were made since the last time, of so many in all.
    pub fn calls(&mut self, calls: u64) -> Result<()> {
        let since = calls.saturating_sub(self.calls);
        self.calls = calls;
        self.count(since)
    }

    /// Counts disk calls from here on, of so many in all.
    pub fn mark(&mut self, calls: u64) {
        self.calls = calls;
    }

    /// All that was told.
    pub fn into_text(self) -> String {
        self.text
    }
}
