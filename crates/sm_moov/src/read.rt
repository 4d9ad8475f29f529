//! A `moov` read (ISO/IEC 14496-12, 8.2.1).
ghost use Rattle.std.specs.Prelude.{◌≡◌, IfOk, map, ok_or};
ghost use Rattle.sm_model.specs.declared.cause.Cause.TheVariants.{BadMoov};
ghost use Rattle.sm_model.specs.Moov.{moov, repeats, settled};
ghost use Rattle.sm_model.specs.Gives.{Gives};

use crate::defaults::with_defaults;
use crate::heads::read_heads;
use crate::trexes::{Trex, read_trexes};
use sm_model::{Cause, Heads, NoMemory, ReadFault, TrackHead};
use std::alloc::Global;
use std::collections::BTreeSet;

// Whether two tracks have one track_ID.
fn repeats(alloc: Global, heads: &[TrackHead]) -> Result<bool, NoMemory>
    ensures { IfOk result (λ r. r ≡ repeats (map (λ h. h.id) heads.now)) }
{
    let mut ids = BTreeSet::new(alloc);
    let mut twice = false;
    for head in heads {
        twice |= !ids.insert(head.id)?;
    }
    Ok(twice)
}

#[tactic(auto, unfolding(sm_model::specs::Moov::settled))]
fn settle(alloc: Global, trexes: &[Trex], heads: &[TrackHead]) -> Result<Heads, ReadFault>
    ensures { Gives result (ok_or (settled trexes.now heads.now) BadMoov) }
{
    if repeats(alloc, heads)? {
        return Err(ReadFault::Refused(Cause::BadMoov));
    }
    Ok(Heads::from_vec(with_defaults(alloc, trexes, heads)?))
}

/// What the body of a `moov` says of its tracks, in the order of their `trak` boxes.
///
/// It is refused as `BadMoov` where a child of the `moov`, of a `trak`, of an `mvex`, or of a first `mdia`, `minf` or
/// `stbl` is cut or has a bad size; where a `trak` lacks `tkhd`, `mdhd` or `stsd`, or one of these is too short for what
/// is read of it or of another version than 0 and 1; where an `stsd` has no whole first entry; where a timescale is 0;
/// where a `trex` is too short; and where two tracks have one track_ID. It takes memory in proportion to the body, and
/// time in proportion to that and the logarithm of the number of tracks.
pub fn read_moov(alloc: Global, body: &[u8]) -> Result<Heads, ReadFault>
    ensures { Gives result (ok_or (moov body.now) BadMoov) }
{
    let Some(trexes) = read_trexes(alloc, body)? else {
        return Err(ReadFault::Refused(Cause::BadMoov));
    };
    let Some(heads) = read_heads(alloc, body)? else {
        return Err(ReadFault::Refused(Cause::BadMoov));
    };
    settle(alloc, &trexes, &heads)
}
