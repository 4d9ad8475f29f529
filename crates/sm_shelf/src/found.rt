//! What a reader takes out of what is published, before it writes a reply.

use sm_model::{Channel, Fragment, Text};
use std::sync::Arc;

/// A fragment of the window: its place in the log, and the starts and durations of up to two listed fragments ahead.
#[derive(Drop)]
pub struct Held {
    pub place: u64,
    pub first: Option<(u64, u64)>,
    pub second: Option<(u64, u64)>,
    pub fragment: Arc<Fragment>,
    /// The channel, for a reader that doesn't have it yet.
    pub channel: Option<Channel>,
}

/// What is found at an address.
#[derive(Drop)]
pub enum Found {
    Held(Held),
    /// The window has nothing there.
    Forward,
    NoMemory,
}

/// What is said of the manifest.
#[derive(Drop)]
pub enum Listing {
    /// No channel is declared.
    Undeclared,
    /// As much was added as the reader knows.
    Same,
    /// So much was added, and this is the reply.
    New(u64, Text),
    NoMemory,
}
