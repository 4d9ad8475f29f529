//! Reading a `traf` (ISO/IEC 14496-12, 8.8.6 to 8.8.8; [MS-SSTR] 2.2.4.4 and 2.2.4.5).
ghost use Rattle.std.specs.Prelude.{◌≡◌, IsTrue, IfOk};
ghost use Rattle.sm_model.specs.Fields.{tfrf_fits};
ghost use Rattle.sm_model.specs.Frag.{run_of, traf, ahead_of};
ghost use Rattle.sm_box.specs.Seen.{seen};
ghost use Rattle.sm_traf.specs.Parts.{seen_parts, Passes};
ghost use Rattle.sm_model.specs.Gives.{Gives};

use crate::fields::version;
use crate::parts::{Parts, parts_of};
use crate::refusal::refused;
use crate::tfhd::defaults_of;
use crate::tfrf::pairs_of;
use crate::tfxd::tfxd_pair;
use crate::trun::{rows_of, start_of};
use sm_box::{Found, u32_at};
use sm_model::{Cause, Defaults, NoMemory, Pairs, ReadFault, Run};
use std::alloc::Global;

// The pairs ahead, none where there is no `tfrf`.
#[tactic(auto, unfolding(sm_model::specs::Frag::ahead_of))]
fn ahead_of(alloc: Global, ahead: &Found) -> Result<Pairs, NoMemory>
    requires { IsTrue ahead.now.some → IsTrue (tfrf_fits ahead.now.first.now) }
    ensures { IfOk result (λ pairs. pairs ≡ ahead_of (seen ahead.now)) }
{
    if ahead.some {
        pairs_of(alloc, ahead.first)
    } else {
        Ok(Pairs::from_vec(Vec::new(alloc)))
    }
}

#[tactic(auto, using(crate::proofs::Facts::run_eight, crate::proofs::Facts::head_len, crate::proofs::Facts::head_eight), unfolding(sm_model::specs::Frag::run_of))]
fn run_of(alloc: Global, defaults: &Defaults, parts: &Parts) -> Result<Run, NoMemory>
    requires { Passes (seen_parts parts.now) }
    ensures { IfOk result (λ run. run ≡ run_of defaults.now (seen_parts parts.now)) }
{
    let head = parts.head.first;
    let run = parts.run.first;
    let (time, duration) = tfxd_pair(parts.time.first);
    let defaults = defaults_of(defaults, head);
    let samples = rows_of(alloc, &defaults, run)?;
    let ahead = ahead_of(alloc, &parts.ahead)?;
    Ok(Run {
        id: u32_at(head, 4),
        time,
        duration,
        signed: version(run) == 1,
        start: start_of(run),
        samples,
        ahead,
    })
}

/// What the body of a `traf` says, with the defaults of its track for what it leaves out, or the first cause why it is
/// refused. Boxes that are not looked at are skipped. It takes memory only once every length was compared with its
/// count, 16 bytes for each sample and each pair; its time is linear in the body and the samples.
#[tactic(auto, unfolding(sm_model::specs::Frag::traf, sm_model::specs::Frag::judged))]
pub fn read_traf(alloc: Global, body: &[u8], defaults: &Defaults) -> Result<Run, ReadFault>
    ensures { Gives result (traf defaults.now body.now) }
{
    let Some(parts) = parts_of(body) else {
        return Err(ReadFault::Refused(Cause::BadBox));
    };
    if let Some(cause) = refused(&parts) {
        return Err(ReadFault::Refused(cause));
    }
    match run_of(alloc, defaults, &parts) {
        Ok(run) => Ok(run),
        Err(NoMemory) => Err(ReadFault::NoMemory),
    }
}
