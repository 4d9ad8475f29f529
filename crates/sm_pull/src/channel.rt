//! The channel of an archive.
ghost use Rattle.std.specs.Prelude.{◌≡◌, ℕ, List, Option, Some, IfOk};
ghost use Rattle.sm_model.specs.declared.entry.Entry.{Entry};
ghost use Rattle.sm_model.specs.declared.track.Track.{Track};
ghost use Rattle.sm_model.specs.Channels.{IsChannel};
ghost use Rattle.sm_log.specs.Logs.{channel_of};
ghost use Rattle.sm_archive.specs.Stands.{Keeps};

use sm_archive::Archive;
use sm_model::{Channel, NoMemory};
use std::alloc::Global;

/// An equal channel to that of an archive which has one.
pub fn channel_of(alloc: Global, archive: &Archive) -> Result<Channel, NoMemory>
    requires { (bodies : List (List ℕ)) × (body : Option (List ℕ)) × (log : List Entry) × (doubt : Option Entry) × (channel : List Track)
        × Keeps archive.now bodies body log doubt × (channel_of log ≡ Some channel) }
    ensures same { IfOk result (λ own. (bodies : List (List ℕ)) (body : Option (List ℕ)) (log : List Entry) (doubt : Option Entry)
        → Keeps archive.now bodies body log doubt → channel_of log ≡ Some own) }
    ensures valid { IfOk result IsChannel }
{
    match archive.catalog() {
        Some(catalog) => catalog.channel().copy(alloc),
        None => unreachable!(),
    }
}
