//! Entries of a log.

use crate::{Channel, Fragment};

/// One entry of a log: the channel, which stands first and once, or a fragment that is kept.
#[derive(Debug, Drop)]
pub enum Entry {
    /// A valid channel.
    Declare(Channel),
    /// A valid fragment.
    Keep(Fragment),
}
