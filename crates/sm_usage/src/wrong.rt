//! What may be wrong in words.
ghost use Rattle.std.specs.Prelude.{◌≡◌, string_bytes, IfOk};
ghost use Rattle.sm_usage.specs.Faults.{fault_of, line_of};

use crate::part::Part;
use crate::parts::option_wants;
use sm_model::NoMemory;
use sm_words::Name;
use std::alloc::Global;

/// What is wrong in words.
#[derive(Clone, Copy, Drop)]
pub enum Wrong<'w> {
    /// There is no word at all.
    NoWords,
    /// The word names no command.
    NoCommand(&'w str),
    /// The word begins with `-`, and is no option of the command.
    NoOption(&'w str),
    /// The option has no value, or one that begins with `-`.
    NoValue(Name),
    /// The option takes no value, and has one.
    TakesNone(Name),
    /// The option stands twice.
    Twice(Name),
    /// The part isn't there.
    Lacks(Part),
    /// The option isn't there.
    LacksOption(Name),
    /// There is no place for the word.
    More(&'w str),
    /// A word isn't what its part wants.
    WantsPart(Part),
    /// A value isn't what its option wants.
    WantsOption(Name),
    /// With threads that answer viewers the next port is theirs, and there is none.
    NoNextPort,
    /// There are more than 16 streams.
    ManyStreams,
}

impl<'w> Wrong<'w> {
    /// The line that tells it.
    pub fn line(self, alloc: Global) -> Result<String, NoMemory>
        ensures { IfOk result (λ line. string_bytes line ≡ line_of (fault_of self.entry)) }
    {
        Ok(match self {
            Wrong::NoWords => String::from_str(alloc, "COMMAND is missing\n")?,
            Wrong::NoCommand(word) => format!(in alloc; "{word} is no command\n")?,
            Wrong::NoOption(word) => format!(in alloc; "{word} is no option of this command\n")?,
            Wrong::NoValue(name) => {
                let (text, wants) = (name.text(), option_wants(name));
                format!(in alloc; "{text} wants {wants} behind it\n")?
            }
            Wrong::TakesNone(name) => {
                let text = name.text();
                format!(in alloc; "{text} takes no value\n")?
            }
            Wrong::Twice(name) => {
                let text = name.text();
                format!(in alloc; "{text} stands twice\n")?
            }
            Wrong::Lacks(part) => {
                let text = part.text();
                format!(in alloc; "{text} is missing\n")?
            }
            Wrong::LacksOption(name) => {
                let text = name.text();
                format!(in alloc; "{text} is missing\n")?
            }
            Wrong::More(word) => format!(in alloc; "{word} is one word too many\n")?,
            Wrong::WantsPart(part) => {
                let (text, wants) = (part.text(), part.wants());
                format!(in alloc; "{text} wants {wants}\n")?
            }
            Wrong::WantsOption(name) => {
                let (text, wants) = (name.text(), option_wants(name));
                format!(in alloc; "{text} wants {wants}\n")?
            }
            Wrong::NoNextPort => String::from_str(
                alloc,
                "--port wants a number from 1 to 65534 with --players\n",
            )?,
            Wrong::ManyStreams => { String::from_str(alloc, "STREAM stands more than 16 times\n")? }
        })
    }
}
