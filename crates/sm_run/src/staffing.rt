//! Starting players.
ghost use Rattle.std.specs.Prelude.{◌≡◌, ◌≤◌, ◌<◌, ◌+◌, All, length, map, vec_len, OnOk, OnErr, IsErrOf};
ghost use Rattle.sm_site.specs.Clauses.{Rose};
ghost use Rattle.sm_players.specs.declared.spawner.SpawnError.TheVariants.{Failed};
ghost use Rattle.sm_shelf.specs.Shelf.{Table};
ghost use Rattle.sm_run.specs.Staff.{IsUnread, Starts};

use sm_players::{PlayerHandle, SpawnError, Spawner};
use sm_shelf::Readers;

/// The players that run, in the order in which they were started.
pub type Running<P> = Vec<PlayerHandle<<P as Spawner>::Wire, <P as Spawner>::Forward>>;

/// Starts a player for each reader.
pub fn start_all<P: Spawner>(
    spawner: &mut P,
    readers: Readers,
    running: &mut Running<P>,
) -> Result<(), SpawnError>
    ensures ok { OnOk result (P.started spawner.new ≡ P.started spawner.old + length readers) }
    ensures err { OnErr result (P.started spawner.new < P.started spawner.old + length readers) }
    ensures no_fewer { P.started spawner.old ≤ P.started spawner.new }
    // Those that were started run, with readers of the shelf that all of these are of.
    ensures starts { (shelf : Table) → All (IsUnread shelf) readers → Starts shelf (P.limit spawner.old) (P.started spawner.old) (P.started spawner.new)
        (map (λ h. h.promise) running.old.items) (map (λ h. h.promise) running.new.items) }
    ensures count { vec_len running.new + P.started spawner.old ≡ vec_len running.old + P.started spawner.new }
    ensures few { vec_len running.new ≤ vec_len running.old + length readers }
    ensures limit { P.limit spawner.new ≡ P.limit spawner.old }
    ensures failed { IsErrOf result Failed → Rose (P.spawn_faults spawner.old) (P.spawn_faults spawner.new) }
    ensures chosen { P.chosen spawner.new ≡ P.chosen spawner.old }
    ensures later { P.spawn_faults spawner.old ≤ P.spawn_faults spawner.new }
{
    let mut readers = readers.into_vec();
    let Ok(()) = running.reserve(readers.len()) else {
        return Err(SpawnError::NoMemory);
    };
    while let Some(reader) = readers.pop() {
        let handle = spawner.start(reader)?;
        running.push_reserved(handle);
    }
    Ok(())
}
