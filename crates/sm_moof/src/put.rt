//! Writing a fragment. Where memory runs out, what stood in front stays.
#![tactic(auto, using(sm_box::proofs::FrontStays::stays_same, sm_box::proofs::FrontStays::stays_behind))]

ghost use Rattle.std.specs.Prelude.{◌≡◌, ◌≤◌, ◌<◌, ◌^◌, ◌++◌, ℕ, length, OnOk, OnErr, IfOk};
ghost use Rattle.std.specs.List.{flat_map};
ghost use Rattle.sm_model.specs.Numbers.{number32};
ghost use Rattle.sm_model.specs.Fragments.{sample_bytes, IsValid};
ghost use Rattle.sm_box.specs.Appended.{StaysInFront};
ghost use Rattle.sm_model.specs.FragText.{mfhd, moof, frag_text, moof_len};

use sm_box::{append_head, append_u32};
use sm_model::law::sizes_are_lengths;
use sm_model::{Bytes, Fragment, NoMemory, Sample, Samples};
use sm_traf::{append_traf, traf_len};
use std::alloc::Global;

fn append_mfhd(out: &mut Vec<u8>, seq: u32) -> Result<(), NoMemory>
    ensures ok { OnOk result (out.new.items ≡ out.old.items ++ mfhd seq) }
    ensures err { OnErr result (StaysInFront out.old.items out.new.items) }
{
    append_head(out, 16, b"mfhd")?;
    append_u32(out, 0)?;
    append_u32(out, seq)
}

// How many bytes the moof takes.
fn moof_len(samples: &[Sample], ahead: &[(u64, u64)]) -> u32
    requires samples { length samples.now ≤ 65536 }
    requires few { length ahead.now ≤ 255 }
    ensures value { result ≡ moof_len samples.now ahead.now }
    ensures short { result < 2 ^ 22 }
{
    24 + traf_len(samples, ahead)
}

fn append_moof(
    out: &mut Vec<u8>,
    seq: u32,
    id: u32,
    fragment: &Fragment,
    ahead: &[(u64, u64)],
) -> Result<(), NoMemory>
    requires valid { IsValid fragment.now }
    requires few { length ahead.now ≤ 255 }
    ensures ok { OnOk result (out.new.items ≡ out.old.items ++ moof seq id fragment.now ahead.now) }
    ensures err { OnErr result (StaysInFront out.old.items out.new.items) }
{
    let size = moof_len(fragment.samples.as_slice(), ahead);
    append_head(out, size, b"moof")?;
    append_mfhd(out, seq)?;
    append_traf(out, id, size + 8, fragment, ahead)
}

// How many bytes the samples have together.
fn total_len(samples: &[Sample]) -> u32
    requires { sample_bytes samples.now ≤ 67108864 }
    ensures { result ≡ sample_bytes samples.now }
{
    let mut total = 0;
    for sample in samples {
        total += sample.bytes.len() as u32;
    }
    total
}

fn append_each(out: &mut Vec<u8>, samples: &[Sample]) -> Result<(), NoMemory>
    ensures ok { OnOk result (out.new.items ≡ out.old.items ++ flat_map (λ s. s.bytes) samples.now) }
    ensures err { OnErr result (StaysInFront out.old.items out.new.items) }
{
    for sample in samples {
        out.extend_from_slice(sample.bytes.as_slice())?;
    }
    Ok(())
}

// The bytes of all samples, at once where they lie in one block.
fn append_bytes(out: &mut Vec<u8>, samples: &Samples) -> Result<(), NoMemory>
    ensures ok { OnOk result (out.new.items ≡ out.old.items ++ flat_map (λ s. s.bytes) samples.now) }
    ensures err { OnErr result (StaysInFront out.old.items out.new.items) }
{
    match samples.joined() {
        Some(bytes) => {
            out.extend_from_slice(bytes)?;
            Ok(())
        }
        None => append_each(out, samples.as_slice()),
    }
}

/// How many bytes the canonical text of a fragment has.
pub fn fragment_len(fragment: &Fragment, ahead: &[(u64, u64)]) -> u32
    requires valid { IsValid fragment.now }
    requires few { length ahead.now ≤ 255 }
    ensures { (seq id : ℕ) → result ≡ length (frag_text seq id fragment.now ahead.now) }
{
    sizes_are_lengths();
    let samples = fragment.samples.as_slice();
    moof_len(samples, ahead) + 8 + total_len(samples)
}

/// Appends the front of the text that `put_fragment` gives: the `moof`, and the head of the `mdat`. With the bytes of all samples behind it,
/// it is that text. Without memory for all of it a part may stand behind what was there.
pub fn append_fragment_head(
    out: &mut Vec<u8>,
    seq: u32,
    id: u32,
    fragment: &Fragment,
    ahead: &[(u64, u64)],
) -> Result<(), NoMemory>
    requires valid { IsValid fragment.now }
    requires few { length ahead.now ≤ 255 }
    ensures ok { OnOk result (out.new.items ++ flat_map (λ s. s.bytes) fragment.now.samples ≡ out.old.items ++ frag_text seq id fragment.now ahead.now) }
    ensures stays { StaysInFront out.old.items out.new.items }
{
    let total = total_len(fragment.samples.as_slice());
    append_moof(out, seq, id, fragment, ahead)?;
    append_head(out, 8 + total, b"mdat")
}

/// Appends the text that `put_fragment` gives. Each sample is copied once. Without memory for all of it a part may stand
/// behind what was there.
pub fn append_fragment(
    out: &mut Vec<u8>,
    seq: u32,
    id: u32,
    fragment: &Fragment,
    ahead: &[(u64, u64)],
) -> Result<(), NoMemory>
    requires valid { IsValid fragment.now }
    requires few { length ahead.now ≤ 255 }
    ensures ok { OnOk result (out.new.items ≡ out.old.items ++ frag_text seq id fragment.now ahead.now) }
    ensures err { OnErr result (StaysInFront out.old.items out.new.items) }
{
    append_fragment_head(out, seq, id, fragment, ahead)?;
    append_bytes(out, &fragment.samples)
}

/// The canonical text of a fragment: a `moof` and an `mdat` with this sequence number and track_ID, every field of each
/// sample written out, and the times and durations of the fragments ahead, if any, in ticks of the track's timescale.
/// Each sample is copied once.
pub fn put_fragment(
    alloc: Global,
    seq: u32,
    id: u32,
    fragment: &Fragment,
    ahead: &[(u64, u64)],
) -> Result<Bytes, NoMemory>
    requires valid { IsValid fragment.now }
    requires few { length ahead.now ≤ 255 }
    ensures { IfOk result (λ text. text ≡ frag_text seq id fragment.now ahead.now) }
{
    let mut out = Vec::with_capacity(alloc, fragment_len(fragment, ahead) as usize)?;
    append_fragment(&mut out, seq, id, fragment, ahead)?;
    Ok(Bytes::from_vec(out))
}
