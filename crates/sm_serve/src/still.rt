//! Whether a connection is still open.

// What became of a connection behind what was done on it.
#[derive(Clone, Copy)]
pub(crate) enum Still {
    // It is open.
    Open,
    // It was closed.
    Closed,
}
