//! Rehearsing in a stated world.
ghost use Rattle.std.specs.Prelude.{◌≡◌, ◌≤◌, ◌<◌, ◌^◌, length, IfOk};
ghost use Rattle.sm_tool.specs.Rehearsals.{IsRehearsed, RehearseMeans, rehearse_line};
ghost use Rattle.sm_client.specs.Turns.{meant};

use crate::answer::Answer;
use sm_model::{Bytes, NoMemory};
use sm_policy::Policy;
use sm_world::Summary;
use std::alloc::Global;

fn rehearse_line(alloc: Global, number: u64, size: u64, summary: Summary) -> Result<Bytes, NoMemory>
    ensures { IfOk result (λ line. line ≡ rehearse_line number size summary) }
{
    let Summary {
        kept,
        known,
        refused,
        crashes,
        lost,
        cut,
        played,
    } = summary;
    let line = format!(in alloc;
        "rehearse {number} {size}: kept {kept} known {known} refused {refused} crashes {crashes} lost {lost} cut {cut} played {played}\n"
    )?;
    Ok(Bytes::from_vec(line.into_bytes()))
}

// Rehearses, and gives the line that tells it.
fn rehearsed(
    alloc: Global,
    number: u64,
    size: u64,
    policies: Vec<Box<dyn Policy>>,
) -> Result<Bytes, NoMemory>
    requires policies { length policies.items ≡ 3 }
    requires number { number < 2 ^ 31 }
    requires size { size ≤ 2000 }
    ensures { IfOk result (IsRehearsed (meant pick_after retired_after) number size policies.items) }
{
    let rehearsal = sm_world::rehearse(alloc, number, size, policies)?;
    let line = rehearse_line(alloc, number, size, rehearsal.summary)?;
    Ok(line)
}

/// Rehearses in the world of that number with so many rounds of pushes, by these policies, one for each client, and says what came of it.
pub fn rehearse(alloc: Global, number: u64, size: u64, policies: Vec<Box<dyn Policy>>) -> Answer
    requires policies { length policies.items ≡ 3 }
    requires number { number < 2 ^ 31 }
    requires size { size ≤ 2000 }
    ensures { RehearseMeans (meant pick_after retired_after) number size policies.items result }
{
    match rehearsed(alloc, number, size, policies) {
        Ok(line) => Answer::Found(line),
        Err(NoMemory) => Answer::Starved,
    }
}
