//! The first cause why a `traf` is refused.
ghost use Rattle.std.specs.Prelude.{◌≡◌, true, IfNone};
ghost use Rattle.sm_model.specs.Fields.{trun_fits};
ghost use Rattle.sm_model.specs.Frag.{first_cause, refusal, other_lines};
ghost use Rattle.sm_traf.specs.Parts.{seen_parts, run_lines, IsReadable, Passes};

use crate::fields::has;
use crate::parts::Parts;
use crate::tfhd::tfhd_fits;
use crate::tfrf::tfrf_fits;
use crate::tfxd::{tfxd_fits, tfxd_pair};
use crate::trun::trun_fits;
use sm_box::u32_at;
use sm_model::Cause;

// The first cause that holds, if one does. The order is that of the causes' list: a box that is missing, doubled or of
// the wrong length, protection, a second `trun`, a base data offset, the time, the samples.
#[tactic(auto, unfolding(sm_model::specs::Frag::refusal))]
pub(crate) fn refused(parts: &Parts) -> Option<Cause>
    ensures cause { result ≡ refusal (seen_parts parts.now) }
    ensures passes { IfNone result (Passes (seen_parts parts.now)) }
{
    if !parts.head.some {
        return Some(Cause::BadBox);
    }
    if parts.head.twice || parts.time.twice || parts.ahead.twice {
        return Some(Cause::BadBox);
    }
    if !tfhd_fits(parts.head.first) {
        return Some(Cause::BadBox);
    }
    if parts.time.some && !tfxd_fits(parts.time.first) {
        return Some(Cause::BadBox);
    }
    if parts.ahead.some && !tfrf_fits(parts.ahead.first) {
        return Some(Cause::BadBox);
    }
    refused_by_head_or_time(parts)
}

#[tactic(auto, using(crate::proofs::Facts::head_eight))]
fn refused_by_head_or_time(parts: &Parts) -> Option<Cause>
    requires { IsReadable (seen_parts parts.now) }
    ensures cause { result ≡ first_cause (other_lines (seen_parts parts.now)) }
    ensures passes { IfNone result (Passes (seen_parts parts.now)) }
{
    if parts.senc.some || parts.sealed.some {
        return Some(Cause::Protected);
    }
    if parts.run.twice {
        return Some(Cause::ManyRuns);
    }
    if has(u32_at(parts.head.first, 0), 0x1) {
        return Some(Cause::BaseOffset);
    }
    if !parts.time.some {
        return Some(Cause::NoTime);
    }
    let (time, duration) = tfxd_pair(parts.time.first);
    if duration == 0 {
        return Some(Cause::NoDuration);
    }
    if time as u128 + duration as u128 >= 0x8000_0000_0000_0000 {
        return Some(Cause::TimeTooLarge);
    }
    refused_by_run(parts)
}

// A body with fewer than eight bytes has no count, and is one of the wrong length.
fn refused_by_run(parts: &Parts) -> Option<Cause>
    ensures cause { result ≡ first_cause (run_lines (seen_parts parts.now)) }
    ensures passes { IfNone result (trun_fits parts.now.run.first.now ≡ true) }
{
    if !parts.run.some {
        return Some(Cause::NoSamples);
    }
    let run = parts.run.first;
    if run.len() >= 8 && u32_at(run, 4) == 0 {
        return Some(Cause::NoSamples);
    }
    if run.len() >= 8 && u32_at(run, 4) > 65536 {
        return Some(Cause::TooManySamples);
    }
    if !trun_fits(run) {
        return Some(Cause::BadRun);
    }
    None
}
