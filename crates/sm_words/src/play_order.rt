//! What is played.
ghost use Rattle.std.specs.Prelude.{◌≡◌, string_bytes};

use sm_client::Plan;

/// What is played, and where from.
#[derive(Debug, Drop)]
pub struct PlayOrder {
    /// The host of the plan's place, as a text.
    pub host: String,
    /// 1 to 16 streams, at most 1,000,000 fragments of each, 1 to 16 tries, and 1 to 10,000 manifests for one start.
    pub plan: Plan,
    ghost same: { string_bytes host ≡ plan.place.host },
}
