// How long a link waits for its peers, and how much it keeps for them.

/// How long a link waits for its peers, in milliseconds, and how much it keeps for all of them.
#[derive(Clone, Copy, Debug, PartialEq, Eq)]
pub struct Patience {
    /// How long a peer may take nothing of what waits for it.
    pub stuck: u64,
    /// How long a peer for which nothing waits may send nothing.
    pub silent: u64,
    /// How long a peer may take to send the head of a request.
    pub head: u64,
    /// How long what a peer sends after its close is still read and dropped.
    pub linger: u64,
    /// How many bytes may wait for all peers together.
    pub waiting: usize,
}

impl Patience {
    /// What a link has if nothing else is said: 30 seconds, two minutes, 30 seconds, two seconds and 536,870,912 bytes.
    pub const USUAL: Patience = Patience {
        stuck: 30_000,
        silent: 120_000,
        head: 30_000,
        linger: 2_000,
        waiting: 536_870_912,
    };
}
