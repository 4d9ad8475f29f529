//! Why no event was waited for beside players.

use sm_command::StoreFault;
use sm_players::SpawnError;

/// Why no event was waited for.
#[derive(Debug, Drop)]
pub enum ShowFault {
    /// The store isn't ready.
    Store(StoreFault),
    /// Not all players run.
    Spawn(SpawnError),
}
