//! The samples of a track fragment (`trun`, ISO/IEC 14496-12, 8.8.8).
ghost use Rattle.std.specs.Prelude.{◌≡◌, ◌≤◌, ◌<◌, ◌+◌, length, IsTrue, IfOk};
ghost use Rattle.sm_model.specs.Numbers.{number32_at};
ghost use Rattle.sm_model.specs.Fields.{has, field, row_len, rows_at, trun_fits, row_at, row, rows, data_offset};

use crate::fields::{field, given, has, version};
use sm_box::u32_at;
use sm_model::{Defaults, NoMemory, Row, Rows};
use std::alloc::Global;

// The bytes of one sample's fields.
#[tactic(auto, unfolding(sm_model::specs::Fields::row_len))]
fn row_len(word: u32) -> usize
    ensures value { result ≡ row_len word }
    ensures bound { result ≤ 16 }
{
    field(word, 0x100, 4) + field(word, 0x200, 4) + field(word, 0x400, 4) + field(word, 0x800, 4)
}

// Where the first sample's fields stand.
#[tactic(auto, unfolding(sm_model::specs::Fields::rows_at))]
fn rows_at(word: u32) -> usize
    ensures value { result ≡ rows_at word }
    ensures bound { result ≤ 16 }
{
    8 + field(word, 0x1, 4) + field(word, 0x4, 4)
}

// Whether a body has a version that is known, and exactly the length that its flags and count give.
#[tactic(auto, unfolding(sm_model::specs::Fields::trun_fits))]
pub(crate) fn trun_fits(body: &[u8]) -> bool
    ensures { result ≡ trun_fits body.now }
{
    if body.len() < 8 || version(body) > 1 {
        return false;
    }
    let word = u32_at(body, 0);
    body.len() == rows_at(word) + u32_at(body, 4) as usize * row_len(word)
}

// The flags that stand once, for the first sample.
#[tactic(auto, unfolding(sm_model::specs::Fields::rows_at, sm_model::specs::Fields::field))]
fn first_flags(word: u32, body: &[u8]) -> u32
    requires has { IsTrue (has word 0x4) }
    requires front { rows_at word ≤ length body.now }
    ensures { result ≡ number32_at (8 + field word 0x1 4) body.now }
{
    u32_at(body, 8 + field(word, 0x1, 4))
}

// A sample whose fields stand at a place.
#[tactic(auto, unfolding(sm_model::specs::Fields::row_at, sm_model::specs::Fields::row_len, sm_model::specs::Fields::rows_at))]
fn row_at(defaults: &Defaults, word: u32, at: usize, body: &[u8], first: bool) -> Row
    requires room { at + row_len word ≤ length body.now }
    requires front { rows_at word ≤ length body.now }
    ensures { result ≡ row_at defaults.now word at body.now first }
{
    let duration = given(word, 0x100, at, body, defaults.duration);
    let size_at = at + field(word, 0x100, 4);
    let size = given(word, 0x200, size_at, body, defaults.size);
    let flags_at = size_at + field(word, 0x200, 4);
    let flags = if first && has(word, 0x4) {
        first_flags(word, body)
    } else {
        given(word, 0x400, flags_at, body, defaults.flags)
    };
    let offset = given(word, 0x800, flags_at + field(word, 0x400, 4), body, 0);
    Row {
        duration,
        size,
        flags,
        offset,
    }
}

// All samples. The room for them is taken once, after the length was compared with the count, and where the fields stand is found once.
#[tactic(auto, using(crate::proofs::Facts::run_eight, crate::proofs::Facts::row_room, crate::proofs::Facts::rows_front, crate::proofs::RowLemmas::rows_none, crate::proofs::RowLemmas::rows_more, crate::proofs::RowLemmas::row_here))]
pub(crate) fn rows_of(alloc: Global, defaults: &Defaults, body: &[u8]) -> Result<Rows, NoMemory>
    requires { IsTrue (trun_fits body.now) }
    ensures { IfOk result (λ samples. samples ≡ rows defaults.now body.now (number32_at 4 body.now)) }
{
    let word = u32_at(body, 0);
    let count = u32_at(body, 4);
    let len = row_len(word);
    let mut at = rows_at(word);
    let mut rows = Vec::with_capacity(alloc, count as usize)?;
    for i in 0..count {
        rows.push(row_at(defaults, word, at, body, i == 0))?;
        at += len;
    }
    Ok(Rows::from_vec(rows))
}

// Where the first sample starts, in bytes from the first byte of the `moof`, if the body says it.
#[tactic(auto, using(crate::proofs::Facts::run_fits), unfolding(sm_model::specs::Fields::data_offset, sm_model::specs::Fields::rows_at, sm_model::specs::Fields::field))]
pub(crate) fn start_of(body: &[u8]) -> Option<i64>
    requires { IsTrue (trun_fits body.now) }
    ensures { result ≡ data_offset body.now }
{
    if has(u32_at(body, 0), 0x1) {
        Some(u32_at(body, 8).cast_signed() as i64)
    } else {
        None
    }
}
