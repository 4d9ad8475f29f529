//! What the loop answers.

/// What a turn did.
#[derive(Clone, Copy, Debug, PartialEq, Eq)]
pub enum Turn {
    /// An event was taken, and all that it completes was answered.
    Went,
    /// Nothing more comes.
    Ended,
    /// The link failed, and no event was taken.
    LinkFault,
    /// Memory was wanting, and no event was taken.
    NoMemory,
}

/// How the loop ended.
#[derive(Clone, Copy, Debug, PartialEq, Eq)]
pub enum Served {
    /// Nothing more came, or so many events were taken.
    Done {
        /// How many events were taken, without the last one if that said that nothing more comes.
        turns: u64,
        /// How many turns found what is shown to players behind the log, for a fault of the disk; 0 without players.
        behind: u64,
        /// How many found it behind for want of memory; 0 without players.
        short: u64,
    },
    /// The link failed.
    LinkFault,
    /// Memory was wanting for an event.
    NoMemory,
}
