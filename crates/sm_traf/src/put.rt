//! Writing a `traf` and the boxes in it. Where memory runs out, what stood in front stays.
#![tactic(auto, using(sm_box::proofs::FrontStays::stays_same, sm_box::proofs::FrontStays::stays_behind))]

ghost use Rattle.std.specs.Prelude.{◌≡◌, ◌≤◌, ◌<◌, ◌^◌, ◌+◌, ◌*◌, ◌++◌, length, codes, OnOk, OnErr, IfOk};
ghost use Rattle.std.specs.List.{flat_map};
ghost use Rattle.sm_model.specs.Numbers.{number32};
ghost use Rattle.sm_model.specs.Fragments.{sample_bytes, IsValid};
ghost use Rattle.sm_box.specs.Appended.{StaysInFront};
ghost use Rattle.sm_model.specs.FragText.{box, row_text, pair, tfhd, trun, tfxd_box, tfrf, tfrf_box, traf_box, ahead_len};

use crate::parts::{TFRF, TFXD};
use sm_box::{append_head, append_u32, append_u64};
use sm_model::{Bytes, Fragment, NoMemory, Sample};
use std::alloc::Global;

fn append_pair(out: &mut Vec<u8>, time: u64, duration: u64) -> Result<(), NoMemory>
    ensures ok { OnOk result (out.new.items ≡ out.old.items ++ pair (time, duration)) }
    ensures err { OnErr result (StaysInFront out.old.items out.new.items) }
{
    append_u64(out, time)?;
    append_u64(out, duration)
}

fn append_pairs(out: &mut Vec<u8>, pairs: &[(u64, u64)]) -> Result<(), NoMemory>
    ensures ok { OnOk result (out.new.items ≡ out.old.items ++ flat_map pair pairs.now) }
    ensures err { OnErr result (StaysInFront out.old.items out.new.items) }
{
    for (time, duration) in pairs {
        append_pair(out, *time, *duration)?;
    }
    Ok(())
}

fn append_tfhd(out: &mut Vec<u8>, id: u32) -> Result<(), NoMemory>
    ensures ok { OnOk result (out.new.items ≡ out.old.items ++ tfhd id) }
    ensures err { OnErr result (StaysInFront out.old.items out.new.items) }
{
    append_head(out, 16, b"tfhd")?;
    append_u32(out, 0)?;
    append_u32(out, id)
}

fn append_row(out: &mut Vec<u8>, sample: &Sample) -> Result<(), NoMemory>
    requires { length sample.now.bytes ≤ 67108864 }
    ensures ok { OnOk result (out.new.items ≡ out.old.items ++ row_text sample.now) }
    ensures err { OnErr result (StaysInFront out.old.items out.new.items) }
{
    append_u32(out, sample.duration)?;
    append_u32(out, sample.bytes.len() as u32)?;
    append_u32(out, sample.flags)?;
    append_u32(out, sample.offset)
}

fn append_rows(out: &mut Vec<u8>, samples: &[Sample]) -> Result<(), NoMemory>
    requires { sample_bytes samples.now ≤ 67108864 }
    ensures ok { OnOk result (out.new.items ≡ out.old.items ++ flat_map row_text samples.now) }
    ensures err { OnErr result (StaysInFront out.old.items out.new.items) }
{
    for sample in samples {
        append_row(out, sample)?;
    }
    Ok(())
}

fn append_trun(
    out: &mut Vec<u8>,
    start: u32,
    signed: bool,
    samples: &[Sample],
) -> Result<(), NoMemory>
    requires few { length samples.now ≤ 65536 }
    requires short { sample_bytes samples.now ≤ 67108864 }
    ensures ok { OnOk result (out.new.items ≡ out.old.items ++ trun start signed samples.now) }
    ensures err { OnErr result (StaysInFront out.old.items out.new.items) }
{
    let count = samples.len() as u32;
    append_head(out, 20 + 16 * count, b"trun")?;
    append_u32(out, if signed { 0x01000f01 } else { 0x00000f01 })?;
    append_u32(out, count)?;
    append_u32(out, start)?;
    append_rows(out, samples)
}

// The front of a box of a user type, down to version 1 and no flags.
fn append_user_head(out: &mut Vec<u8>, size: u32, user: &[u8; 16]) -> Result<(), NoMemory>
    ensures ok { OnOk result (out.new.items ≡ out.old.items ++ box size (codes "uuid") (user.now ++ number32 0x01000000)) }
    ensures err { OnErr result (StaysInFront out.old.items out.new.items) }
{
    append_head(out, size, b"uuid")?;
    out.extend_from_slice(user)?;
    append_u32(out, 0x01000000)
}

fn append_tfxd(out: &mut Vec<u8>, time: u64, duration: u64) -> Result<(), NoMemory>
    ensures ok { OnOk result (out.new.items ≡ out.old.items ++ tfxd_box time duration) }
    ensures err { OnErr result (StaysInFront out.old.items out.new.items) }
{
    append_user_head(out, 44, &TFXD)?;
    append_pair(out, time, duration)
}

fn append_tfrf_box(out: &mut Vec<u8>, ahead: &[(u64, u64)]) -> Result<(), NoMemory>
    requires { length ahead.now ≤ 255 }
    ensures ok { OnOk result (out.new.items ≡ out.old.items ++ tfrf_box ahead.now) }
    ensures err { OnErr result (StaysInFront out.old.items out.new.items) }
{
    append_user_head(out, 29 + 16 * ahead.len() as u32, &TFRF)?;
    out.push(ahead.len() as u8)?;
    append_pairs(out, ahead)
}

fn append_tfrf(out: &mut Vec<u8>, ahead: &[(u64, u64)]) -> Result<(), NoMemory>
    requires { length ahead.now ≤ 255 }
    ensures ok { OnOk result (out.new.items ≡ out.old.items ++ tfrf ahead.now) }
    ensures err { OnErr result (StaysInFront out.old.items out.new.items) }
{
    match ahead {
        [] => Ok(()),
        [_, ..] => append_tfrf_box(out, ahead),
    }
}

// How many bytes the box of the pairs takes, which is left out where there are none.
fn tfrf_len(ahead: &[(u64, u64)]) -> u32
    requires { length ahead.now ≤ 255 }
    ensures value { result ≡ ahead_len ahead.now }
    ensures short { result ≤ 4109 }
{
    match ahead {
        [] => 0,
        [_, ..] => 29 + 16 * ahead.len() as u32,
    }
}

/// How many bytes the `traf` of a fragment with so many samples takes.
pub fn traf_len(samples: &[Sample], ahead: &[(u64, u64)]) -> u32
    requires samples { length samples.now ≤ 65536 }
    requires few { length ahead.now ≤ 255 }
    ensures value { result ≡ 88 + 16 * length samples.now + ahead_len ahead.now }
    ensures short { result < 2 ^ 21 }
{
    88 + 16 * samples.len() as u32 + tfrf_len(ahead)
}

/// Appends the `traf` that `put_traf` gives. Without memory for all of it a part may stand behind what was there.
pub fn append_traf(
    out: &mut Vec<u8>,
    id: u32,
    data_offset: u32,
    fragment: &Fragment,
    ahead: &[(u64, u64)],
) -> Result<(), NoMemory>
    requires valid { IsValid fragment.now }
    requires few { length ahead.now ≤ 255 }
    ensures ok { OnOk result (out.new.items ≡ out.old.items ++ traf_box id data_offset fragment.now ahead.now) }
    ensures err { OnErr result (StaysInFront out.old.items out.new.items) }
{
    let samples = fragment.samples.as_slice();
    append_head(out, traf_len(samples, ahead), b"traf")?;
    append_tfhd(out, id)?;
    append_trun(out, data_offset, fragment.signed, samples)?;
    append_tfxd(out, fragment.time, fragment.duration)?;
    append_tfrf(out, ahead)
}

/// The `traf` of a fragment in its canonical form: `tfhd`, `trun` with every field of each sample, `tfxd`, and `tfrf`
/// where there are pairs ahead. `data_offset` is where the samples begin, in bytes behind the first byte of the `moof`.
pub fn put_traf(
    alloc: Global,
    id: u32,
    data_offset: u32,
    fragment: &Fragment,
    ahead: &[(u64, u64)],
) -> Result<Bytes, NoMemory>
    requires valid { IsValid fragment.now }
    requires few { length ahead.now ≤ 255 }
    ensures { IfOk result (λ text. text ≡ traf_box id data_offset fragment.now ahead.now) }
{
    let size = traf_len(fragment.samples.as_slice(), ahead);
    let mut out = Vec::with_capacity(alloc, size as usize)?;
    append_traf(&mut out, id, data_offset, fragment, ahead)?;
    Ok(Bytes::from_vec(out))
}

/// The whole box, 44 bytes, of a fragment's time and duration in ticks of its track's timescale, in version 1 with 64
/// bits each ([MS-SSTR] 2.2.4.4).
pub fn put_tfxd(alloc: Global, time: u64, duration: u64) -> Result<Bytes, NoMemory>
    ensures { IfOk result (λ text. text ≡ tfxd_box time duration) }
{
    let mut out = Vec::with_capacity(alloc, 44)?;
    append_tfxd(&mut out, time, duration)?;
    Ok(Bytes::from_vec(out))
}

/// The whole box, 29 bytes and 16 for each pair, of the times and durations of the fragments that follow, in ticks of
/// the track's timescale, in version 1 with 64 bits each ([MS-SSTR] 2.2.4.5). No pairs give no bytes.
pub fn put_tfrf(alloc: Global, ahead: &[(u64, u64)]) -> Result<Bytes, NoMemory>
    requires { length ahead.now ≤ 255 }
    ensures { IfOk result (λ text. text ≡ tfrf ahead.now) }
{
    let mut out = Vec::with_capacity(alloc, tfrf_len(ahead) as usize)?;
    append_tfrf(&mut out, ahead)?;
    Ok(Bytes::from_vec(out))
}
