//! The options of the commands.
ghost use Rattle.std.specs.Prelude.{◌≡◌};
ghost use Rattle.sm_words.specs.Options.{text_of, has_value};

/// An option of a command.
#[derive(Clone, Copy, Debug, PartialEq, Eq)]
pub enum Name {
    /// The port of a link.
    Port,
    /// Whether the input is a ladder.
    Ladder,
    /// The most events that are taken.
    Turns,
    /// The one address that is listened at.
    Bind,
    /// The file of the journal.
    Journal,
    /// How many threads answer viewers beside the loop.
    Players,
    /// The first start that is played.
    From,
    /// How many fragments of each stream are played.
    Count,
    /// How often each manifest and each fragment is asked for at most.
    Tries,
    /// How many manifests are read for one start at most.
    Refresh,
    /// How often the manifest is read into a store.
    Rounds,
}

impl Name {
    /// As it is written.
    pub fn text(self) -> &'static str
        ensures { result.now ≡ text_of self }
    {
        match self {
            Name::Port => "--port",
            Name::Ladder => "--ladder",
            Name::Turns => "--turns",
            Name::Bind => "--bind",
            Name::Journal => "--journal",
            Name::Players => "--players",
            Name::From => "--from",
            Name::Count => "--count",
            Name::Tries => "--tries",
            Name::Refresh => "--refresh",
            Name::Rounds => "--rounds",
        }
    }

    /// Whether a value belongs to it.
    pub fn has_value(self) -> bool
        ensures { result ≡ has_value self }
    {
        match self {
            Name::Ladder => false,
            _ => true,
        }
    }
}
