// The limit of open files that the system sets a process (POSIX, getrlimit).
ghost use Rattle.std.specs.Prelude.{◌≡◌, ◌+◌, ◌*◌, min};

use std::alloc::Global;
use std::io::{self, ErrorKind};

// What the loop has, with its 256 peers, and each player, with its 32 peers, its listeners and what it asks the loop by.
const LOOP: u64 = 280;

const PLAYER: u64 = 40;

// How many descriptors the loop and so many players want.
fn wanted(players: u64) -> u64
    ensures { result ≡ min 18446744073709551615 (280 + min 18446744073709551615 (40 * players)) }
{
    LOOP.saturating_add(PLAYER.saturating_mul(players))
}

// How many the process may have, as far as the system says.
fn allowed() -> u64 {
    let mut limit = libc::types::rlimit {
        rlim_cur: 0,
        rlim_max: 0,
    };
    if libc::getrlimit(libc::RLIMIT_NOFILE, &mut limit) == 0 {
        limit.rlim_cur
    } else {
        u64::MAX
    }
}

/// Fails where the process may not have descriptors enough for the loop and so many players.
pub fn test_descriptors(alloc: Global, players: u64) -> io::Result<()> {
    let wanted = wanted(players);
    let allowed = allowed();
    if allowed >= wanted {
        return Ok(());
    }
    let told = format!(in alloc;
        "{players} players want {wanted} descriptors, and {allowed} are allowed (ulimit -n)"
    )?;
    Err(io::Error::new(ErrorKind::Other, told.as_str()))
}
