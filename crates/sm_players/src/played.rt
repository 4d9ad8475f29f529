//! How a player ends.

/// How a player ended.
#[derive(Clone, Copy, Debug, PartialEq, Eq)]
pub enum Played {
    /// Nothing more came, or so many events were taken.
    Done {
        /// How many final replies were sent whole. The count stands still at its type's end.
        answered: u64,
    },
    /// The wire failed, and its count rose.
    LinkFault,
    /// Memory was wanting for an event.
    NoMemory,
}
