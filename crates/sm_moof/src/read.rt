//! A fragment out of a `moof` and the `mdat` behind it.
ghost use Rattle.std.specs.Prelude.{◌≡◌, ◌<◌, ◌≤◌, ◌+◌, ◌^◌, length};
ghost use Rattle.sm_model.specs.Boxes.{IsOneBox, box_of};
ghost use Rattle.sm_model.specs.Frag.{moof_run, finish, frag, traf, rest_of};
ghost use Rattle.sm_model.specs.Steps.{is_bad, alone};
ghost use Rattle.sm_model.specs.Gives.{Gives};

use crate::cut::lacks_bytes;
use crate::whole::{body_of, head_len, is_mdat, skip_of};
use sm_box::{Found, find_kind};
use sm_model::{Bytes, Cause, Defaults, Part, RawFragment, ReadFault, Run, Samples};
use sm_traf::read_traf;
use std::alloc::Global;

fn is_bad(cause: &Cause) -> bool
    ensures { result ≡ is_bad cause.now }
{
    matches!(cause, Cause::BadBox)
}

// What the first traf says, where there is one: a second one is a ManyTracks behind BadBox and before all else.
fn read_first(alloc: Global, trafs: &Found, defaults: &Defaults) -> Result<Run, ReadFault>
    ensures { Gives result (alone trafs.now.twice (traf defaults.now trafs.now.first.now)) }
{
    match read_traf(alloc, trafs.first, defaults) {
        Ok(run) => {
            if trafs.twice {
                Err(ReadFault::Refused(Cause::ManyTracks))
            } else {
                Ok(run)
            }
        }
        Err(ReadFault::Refused(cause)) => {
            if trafs.twice && !is_bad(&cause) {
                Err(ReadFault::Refused(Cause::ManyTracks))
            } else {
                Err(ReadFault::Refused(cause))
            }
        }
        Err(ReadFault::NoMemory) => Err(ReadFault::NoMemory),
    }
}

/// What a whole `moof` says by itself, or the first cause why it is refused, of those that it shows alone: all but
/// `NoMdat` and `SamplesOutside`. Which cause it is does not depend on the defaults, those of its track's `trex`.
pub fn read_moof(alloc: Global, moof: &[u8], defaults: &Defaults) -> Result<Run, ReadFault>
    requires { IsOneBox moof.now }
    ensures { Gives result (moof_run defaults.now moof.now) }
{
    let Some(trafs) = find_kind(body_of(moof), b"traf") else {
        return Err(ReadFault::Refused(Cause::BadBox));
    };
    if !trafs.some {
        return Err(ReadFault::Refused(Cause::BadBox));
    }
    read_first(alloc, &trafs, defaults)
}

/// The fragment of a `moof` of `size` bytes that said `run`, with the samples out of the whole box behind it, or `NoMdat` or
/// `SamplesOutside`. The data offset counts from the first byte of the `moof`, of which only the length matters here. No byte is
/// copied: each sample owns the block of the box.
#[tactic(auto, unfolding(sm_model::specs::Frag::finish, sm_model::specs::Frag::raw_of))]
pub fn finish(alloc: Global, size: u64, mdat: Part, run: Run) -> Result<RawFragment, ReadFault>
    requires short { size < 2 ^ 63 }
    requires mdat { IsOneBox mdat }
    ensures { Gives result (finish size mdat run) }
{
    if !is_mdat(mdat.as_slice()) {
        return Err(ReadFault::Refused(Cause::NoMdat));
    }
    let head = head_len(mdat.as_slice());
    let rest = rest_behind(mdat, head, size, run.start);
    if lacks_bytes(rest.len(), run.samples.as_slice()) {
        return Err(ReadFault::Refused(Cause::SamplesOutside));
    }
    let samples = Samples::cut(alloc, &rest, run.samples.as_slice())?;
    Ok(RawFragment {
        id: run.id,
        time: run.time,
        duration: run.duration,
        signed: run.signed,
        samples,
        ahead: run.ahead,
    })
}

// The body from the first sample on, of a box whose head takes so many bytes.
#[tactic(auto, using(crate::proofs::WholeLemmas::body_is))]
fn rest_behind(mut mdat: Part, head: usize, size: u64, start: Option<i64>) -> Part
    requires short { size < 2 ^ 63 }
    requires mdat { IsOneBox mdat }
    requires head { (head ≡ (box_of mdat).head) × (head ≤ length mdat) }
    ensures { result ≡ rest_of (size + (box_of mdat).head) start (box_of mdat).body }
{
    mdat.skip(head);
    let skip = skip_of(size + head as u64, start, mdat.len());
    mdat.skip(skip as usize);
    mdat
}

/// What a whole `moof` and the whole box behind it say, or the first cause why they are refused. `defaults` are those of
/// the `trex` of its track, and hold where neither `trun` nor `tfhd` says a value (ISO/IEC 14496-12, 8.8.3 to 8.8.8).
#[tactic(auto, using(sm_model::proofs::OrderLemmas::frag_in_two))]
pub fn read_fragment(
    alloc: Global,
    moof: &[u8],
    mdat: &[u8],
    defaults: &Defaults,
) -> Result<RawFragment, ReadFault>
    requires moof { IsOneBox moof.now }
    requires mdat { IsOneBox mdat.now }
    ensures { Gives result (frag defaults.now moof.now mdat.now) }
{
    let run = read_moof(alloc, moof, defaults)?;
    let mdat = Bytes::from_slice(alloc, mdat)?.into_part(alloc)?;
    finish(alloc, moof.len() as u64, mdat, run)
}
