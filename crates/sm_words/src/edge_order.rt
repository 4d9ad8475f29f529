//! What is pulled into a store.
ghost use Rattle.std.specs.Prelude.{◌≡◌, string_bytes};

use sm_fetch::Place;

/// What is pulled from an origin, and into which store.
#[derive(Debug, Drop)]
pub struct EdgeOrder {
    /// The host of the place, as a text.
    pub host: String,
    /// Where the origin's channel is.
    pub place: Place,
    /// The folder of the store.
    pub store: String,
    /// How often the manifest is read, 1 to 1,000,000.
    pub rounds: u64,
    /// How often each manifest and each fragment is asked for at most, 1 to 16.
    pub tries: u32,
    /// The file of the journal.
    pub journal: Option<String>,
    ghost same: { string_bytes host ≡ place.host },
}
