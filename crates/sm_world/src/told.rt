//! What an origin says of a push.
ghost use Rattle.std.specs.Prelude.{◌≡◌, ◌≤◌, ◌-◌, IfOk, IfSome};
ghost use Rattle.sm_reply.specs.Replies.{counts_line};
ghost use Rattle.sm_world.specs.Told.{Says};

use sm_fetch::Pushed;
use sm_model::NoMemory;
use std::alloc::Global;

/// What an origin says of a push of a few fragments.
#[derive(Clone, Copy, Debug, PartialEq, Eq)]
pub enum Told {
    /// All is well: so many of its fragments were kept already, and the others are kept now.
    Taken { known: u64 },
    /// It is refused for what is kept or declared.
    Refused,
    /// Anything else, or nothing.
    Failed,
}

// How many fragments were known, by the line about so many fragments; none where it is no such line.
fn known_in(alloc: Global, line: &[u8], fragments: u64) -> Result<Option<u64>, NoMemory>
    requires few { fragments ≤ 3 }
    ensures { IfOk result (λ found. IfSome found (λ known. (known ≤ fragments) × (line.now ≡ counts_line (fragments - known) known))) }
{
    for known in 0..fragments + 1 {
        let kept = fragments - known;
        let counts = format!(in alloc; "kept {kept} known {known}\n")?;
        if line == counts.as_bytes() {
            return Ok(Some(known));
        }
    }
    Ok(None)
}

// What was said of a push of so many fragments. A line of another kind behind a 200, which an origin never says, is taken as want of
// memory.
pub(crate) fn told_by(alloc: Global, fragments: u64, pushed: Pushed) -> Result<Told, NoMemory>
    requires few { fragments ≤ 3 }
    ensures { IfOk result (Says fragments pushed) }
{
    match pushed {
        Pushed::Status { status: 200, line } => {
            match known_in(alloc, line.as_slice(), fragments)? {
                Some(known) => Ok(Told::Taken { known }),
                None => Err(NoMemory),
            }
        }
        Pushed::Status { status: 409, .. } => Ok(Told::Refused),
        Pushed::Status { .. } | Pushed::Cut | Pushed::Unreadable { .. } | Pushed::Lost => {
            Ok(Told::Failed)
        }
        Pushed::NoMemory => Err(NoMemory),
    }
}
