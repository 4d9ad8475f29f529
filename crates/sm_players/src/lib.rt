//! Players: threads that answer viewers from what the loop has published, each over connections of its own. What isn't published any more they
//! ask the loop.
#![tactic(auto)]

mod crew;
mod forward;
mod gate;
mod joined;
mod launched;
pub mod law;
mod live;
mod memory;
mod parts;
mod played;
mod playing;
mod replying;
mod spawner;
mod stop;
mod telling;
mod wire;
mod wired;
mod wiring;

pub use crew::Crew;
pub use forward::{Forward, ForwardError};
pub use gate::{Gate, NoGate};
pub use launched::{Launched, Parts, PlayerEnd, PlayerHandle};
pub use memory::{MemorySpawner, NoForward};
pub use played::Played;
pub use playing::player;
pub use spawner::{Finished, SpawnError, Spawner};
pub use stop::Stop;
pub use wire::Wire;
pub use wiring::Wiring;
