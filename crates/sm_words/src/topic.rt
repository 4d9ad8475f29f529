//! What is helped with.
ghost use Rattle.std.specs.Prelude.{◌≡◌, string_bytes, map};
ghost use Rattle.sm_words.specs.Words.{topic_named, topic_of};

/// A command whose use is told, or all of them.
#[derive(Clone, Copy, Debug, PartialEq, Eq)]
pub enum Topic {
    All,
    Serve,
    List,
    Push,
    Play,
    Relay,
    Standby,
    Pick,
    Export,
    Rehearse,
}

impl Topic {
    /// That of the command with a name.
    pub fn named(name: &str) -> Option<Topic>
        ensures { result ≡ topic_named name.now }
    {
        if name == "serve" {
            return Some(Topic::Serve);
        }
        if name == "list" {
            return Some(Topic::List);
        }
        if name == "push" {
            return Some(Topic::Push);
        }
        if name == "play" {
            return Some(Topic::Play);
        }
        if name == "relay" {
            return Some(Topic::Relay);
        }
        if name == "standby" {
            return Some(Topic::Standby);
        }
        if name == "pick" {
            return Some(Topic::Pick);
        }
        if name == "export" {
            return Some(Topic::Export);
        }
        if name == "rehearse" {
            return Some(Topic::Rehearse);
        }
        None
    }

    /// That of the command which words begin with.
    pub fn of(words: &[String]) -> Topic
        ensures { result ≡ topic_of (map string_bytes words.now) }
    {
        match words {
            [] => Topic::All,
            [command, ..] => Topic::named(command.as_str()).unwrap_or(Topic::All),
        }
    }
}
