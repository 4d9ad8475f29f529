//! Finding one fragment among the items of a piece.
ghost use Rattle.std.specs.Prelude.{◌≡◌, ◌<◌, ◌+◌, ◌^◌, ◌==◌, ◌&&◌, length, slice_index_or};
ghost use Rattle.sm_model.specs.Items.{Given};
ghost use Rattle.sm_pick.specs.Search.{fragments_in, is_fragment, is_sought, Hits, tallied};

use sm_model::{Fragment, Item, Items};

/// Where among the items a fragment stands, from 0, and which place it has among all fragments, from 1.
#[derive(Clone, Copy)]
pub struct Hit {
    pub index: usize,
    pub place: u32,
}

/// How many fragments there are, and the first one that is sought.
#[derive(Clone, Copy)]
pub struct Tally {
    pub count: u32,
    pub hit: Option<Hit>,
}

fn is_both(id: u32, at: u64, track: u32, time: u64) -> bool
    ensures { result ≡ (id == track && at == time) }
{
    id == track && at == time
}

fn is_sought(items: &Items, index: u64, track: u32, time: u64) -> bool
    requires { index < length items.now }
    ensures { (d : Given) → result ≡ is_sought track time (slice_index_or items.now index d) }
{
    let Some(id) = items.id(index) else {
        return false;
    };
    match &items.as_slice()[index as usize] {
        Item::Header(_) => false,
        Item::Frag(fragment) => is_both(id, fragment.time, track, time),
    }
}

fn is_fragment(items: &Items, index: u64) -> bool
    requires { index < length items.now }
    ensures { (d : Given) → result ≡ is_fragment (slice_index_or items.now index d) }
{
    items.id(index).is_some()
}

// One fragment more, which stands at this index. Only the first hit counts.
fn tallied(before: Tally, hit: bool, index: usize) -> Tally
    requires { before.count + 1 < 2 ^ 32 }
    ensures { result ≡ tallied before hit index }
{
    let count = before.count + 1;
    let hit = match before.hit {
        Some(first) => Some(first),
        None if hit => Some(Hit {
            index,
            place: count,
        }),
        None => None,
    };
    Tally { count, hit }
}

/// Counts the fragments among these items on, from so many before them, and finds the first one with that track_ID and time.
pub fn seek(items: &Items, before: u32, track: u32, time: u64) -> Tally
    requires { before + length items.now < 2 ^ 32 }
    ensures count { result.count ≡ before + fragments_in items.now }
    ensures hit { Hits (before + 1) track time items.now result.hit }
{
    let mut tally = Tally {
        count: before,
        hit: None,
    };
    for index in 0..items.len() {
        if is_fragment(items, index) {
            tally = tallied(tally, is_sought(items, index, track, time), index as usize);
        }
    }
    tally
}
