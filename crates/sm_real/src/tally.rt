// What is counted for the journal.

/// Counts of what happened on a link since some moment.
#[derive(Drop)]
pub struct Tally {
    pub connections: u64,
    /// Those that ended, by a reply or since they were cut off.
    pub pushes: u64,
    pub replies: u64,
    pub kept: u64,
    pub syncs: u64,
    /// The longest of them, in milliseconds.
    pub longest: u64,
    /// The bytes that came, and those of replies.
    pub came: u64,
    pub went: u64,
}

impl Tally {
    pub fn new() -> Tally {
        Tally {
            connections: 0,
            pushes: 0,
            replies: 0,
            kept: 0,
            syncs: 0,
            longest: 0,
            came: 0,
            went: 0,
        }
    }

    /// One more sync, which took so many milliseconds.
    pub fn synced(&mut self, took: u64) {
        self.syncs = self.syncs.saturating_add(1);
        self.longest = self.longest.max(took);
    }

    /// What was counted later counts here too.
    pub fn join(&mut self, later: &Tally) {
        self.connections = self.connections.saturating_add(later.connections);
        self.pushes = self.pushes.saturating_add(later.pushes);
        self.replies = self.replies.saturating_add(later.replies);
        self.kept = self.kept.saturating_add(later.kept);
        self.syncs = self.syncs.saturating_add(later.syncs);
        self.longest = self.longest.max(later.longest);
        self.came = self.came.saturating_add(later.came);
        self.went = self.went.saturating_add(later.went);
    }
}
