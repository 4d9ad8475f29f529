//! The defaults of tracks (ISO/IEC 14496-12, 8.8.3).
ghost use Rattle.std.specs.Prelude.{◌≡◌, ℕ, IfOk, map, unwrap_or};
ghost use Rattle.std.specs.Ordering.{nat_cmp};
ghost use Rattle.std.specs.BTreeMap.{get};
ghost use Rattle.sm_model.specs.Moov.{no_defaults, defaults_for, with_defaults};

use crate::trexes::Trex;
use sm_model::{Defaults, NO_DEFAULTS, NoMemory, TrackHead};
use std::alloc::Global;
use std::collections::BTreeMap;

// The defaults by track_ID. They are put in from the last on, so that the first of a track stays.
fn by_id(alloc: Global, trexes: &[Trex]) -> Result<BTreeMap<u32, Defaults>, NoMemory>
    ensures { IfOk result (λ map. (id : ℕ) → unwrap_or (get nat_cmp map id) no_defaults ≡ defaults_for trexes.now id) }
{
    let mut map = BTreeMap::new(alloc);
    let mut left = trexes.len();
    while left > 0 {
        left -= 1;
        let (id, defaults) = trexes[left];
        map.insert(id, defaults)?;
    }
    Ok(map)
}

/// The heads with the defaults of their tracks: those of the first `trex` of each, or zeros.
pub fn with_defaults(
    alloc: Global,
    trexes: &[Trex],
    heads: &[TrackHead],
) -> Result<Vec<TrackHead>, NoMemory>
    ensures { IfOk result (λ given. given.items ≡ map (with_defaults trexes.now) heads.now) }
{
    let map = by_id(alloc, trexes)?;
    let mut given = Vec::with_capacity(alloc, heads.len())?;
    for head in heads {
        given.push(TrackHead {
            defaults: map.get(&head.id).copied().unwrap_or(NO_DEFAULTS),
            ..*head
        })?;
    }
    Ok(given)
}
