//! The fragments that follow (`tfrf`, [MS-SSTR] 2.2.4.5).
ghost use Rattle.std.specs.Prelude.{◌≡◌, ◌≤◌, ◌<◌, length, slice_index, IsTrue, IfOk};
ghost use Rattle.sm_model.specs.Fields.{pair_len, tfrf_fits, tfrf_pair, pairs};
ghost use Rattle.sm_traf.specs.Aheads.{ahead_at};

use crate::fields::version;
use crate::tfxd::pair_at;
use sm_model::{NoMemory, Pairs};
use std::alloc::Global;

// The bytes of a time and a duration.
#[tactic(auto, unfolding(sm_model::specs::Fields::pair_len))]
fn pair_len(body: &[u8]) -> usize
    requires { 0 < length body.now }
    ensures value { result ≡ pair_len body.now }
    ensures bound { result ≤ 16 }
{
    if version(body) == 1 { 16 } else { 8 }
}

// Whether a body has a version that is known, and exactly the length that its version and count give.
#[tactic(auto, unfolding(sm_model::specs::Fields::tfrf_fits))]
pub(crate) fn tfrf_fits(body: &[u8]) -> bool
    ensures value { result ≡ tfrf_fits body.now }
    ensures room { IsTrue result → 5 ≤ length body.now }
{
    body.len() >= 5 && version(body) <= 1 && body.len() == 5 + body[4] as usize * pair_len(body)
}

// The pair of an index.
#[tactic(auto, using(crate::proofs::Facts::ahead_room, crate::proofs::Facts::ahead_five), unfolding(sm_model::specs::Fields::tfrf_pair))]
fn tfrf_pair(body: &[u8], index: usize) -> (u64, u64)
    requires fits { IsTrue (tfrf_fits body.now) }
    requires within { index < slice_index body.now 4 }
    ensures { result ≡ tfrf_pair body.now index }
{
    pair_at(version(body) == 1, 5 + index * pair_len(body), body)
}

/// What a `tfrf` says of one of the fragments that follow.
#[derive(Clone, Copy, Debug, PartialEq, Eq)]
pub enum Ahead {
    /// Its absolute time and its duration, in ticks of the track's timescale.
    Pair(u64, u64),
    /// There are fewer pairs.
    Past,
    /// The body's version is neither 0 nor 1, or its length is not exactly what version and count give.
    Bad,
}

/// The pair of an index, counted from 0, in the body of a `tfrf`; the body begins behind the user type. It takes no
/// memory, and its time does not depend on the count.
pub fn read_tfrf(body: &[u8], index: u32) -> Ahead
    ensures { result ≡ ahead_at body.now index }
{
    if !tfrf_fits(body) {
        return Ahead::Bad;
    }
    if index >= body[4] as u32 {
        return Ahead::Past;
    }
    let (time, duration) = tfrf_pair(body, index as usize);
    Ahead::Pair(time, duration)
}

// All pairs.
#[tactic(auto, using(crate::proofs::Facts::ahead_five, crate::proofs::RowLemmas::pairs_none, crate::proofs::RowLemmas::pairs_more))]
pub(crate) fn pairs_of(alloc: Global, body: &[u8]) -> Result<Pairs, NoMemory>
    requires { IsTrue (tfrf_fits body.now) }
    ensures { IfOk result (λ ahead. ahead ≡ pairs body.now (slice_index body.now 4)) }
{
    let count = body[4];
    let mut pairs = Vec::with_capacity(alloc, count as usize)?;
    for i in 0..count {
        pairs.push(tfrf_pair(body, i as usize))?;
    }
    Ok(Pairs::from_vec(pairs))
}
