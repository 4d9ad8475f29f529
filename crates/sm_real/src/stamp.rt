// The moment of a line.
ghost use Rattle.std.specs.Prelude.{◌≡◌, ◌++◌, Some, OnOk};
ghost use Rattle.std.specs.Option.{ForSome};
ghost use Rattle.sm_real.specs.Seconds.{stamp};

use crate::digits::put_seconds;
use std::alloc::{AllocError, Global};

/// The moment of the lines that are made, in milliseconds since 1970. Its text is made once for all of them.
#[derive(Drop)]
pub struct Stamp {
    millis: u64,
    // The text, and of which moment it is, where it is whole.
    text: Vec<u8>,
    written_as: Option<u64>,
    ghost whole: { ForSome written_as (λ millis. text.items ≡ stamp millis) },
}

impl Stamp {
    pub fn new(alloc: Global, millis: u64) -> Stamp
        ensures { result.millis ≡ millis }
    {
        Stamp {
            millis,
            text: Vec::new(alloc),
            written_as: None,
        }
    }

    /// Lines are made at this moment from now on.
    pub fn turn_to(&mut self, millis: u64)
        ensures { self.new.millis ≡ millis }
    {
        self.millis = millis;
    }

    /// Puts the moment behind a line, whole.
    pub fn put(&mut self, line: &mut Vec<u8>) -> Result<(), AllocError>
        ensures moment { self.new.millis ≡ self.old.millis }
        ensures whole { OnOk result (line.new.items ≡ line.old.items ++ stamp self.old.millis) }
    {
        if self.written_as != Some(self.millis) {
            self.write()?;
        }
        line.extend_from_slice(&self.text)
    }

    // Makes the text anew.
    fn write(&mut self) -> Result<(), AllocError>
        ensures moment { self.new.millis ≡ self.old.millis }
        ensures written { OnOk result (self.new.written_as ≡ Some self.old.millis) }
    {
        self.written_as = None;
        self.text.clear();
        put_seconds(&mut self.text, self.millis)?;
        self.text.push(b' ')?;
        self.written_as = Some(self.millis);
        Ok(())
    }
}
