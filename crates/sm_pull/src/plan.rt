//! What is to be pulled, and how patiently.

use sm_fetch::Place;

/// What is to be pulled, and how patiently.
#[derive(Debug, Drop)]
pub struct PullPlan {
    /// Where the origin's channel is asked for.
    pub place: Place,
    /// How often the manifest is read, at least 1.
    pub rounds: u64,
    /// How often each manifest and each fragment is asked for at most, at least 1.
    pub tries: u32,
}
