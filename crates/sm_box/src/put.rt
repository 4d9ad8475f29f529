//! Writing numbers and boxes (ISO/IEC 14496-12, 4.2).
ghost use Rattle.std.specs.Prelude.{◌≡◌, ◌<◌, ◌^◌, ◌+◌, ◌++◌, [], length, OnOk, OnErr, IfOk};
ghost use Rattle.sm_model.specs.Numbers.{number32, number64};
ghost use Rattle.sm_model.specs.FragText.{box};
ghost use Rattle.sm_box.specs.Appended.{StaysInFront};

use sm_model::{Bytes, NoMemory};
use std::alloc::Global;

/// Appends the four bytes of a number. Without memory for them the bytes stay as they are.
#[tactic(auto, unfolding(sm_model::specs::Numbers::number32))]
pub fn append_u32(out: &mut Vec<u8>, number: u32) -> Result<(), NoMemory>
    ensures ok { OnOk result (out.new.items ≡ out.old.items ++ number32 number) }
    ensures err { OnErr result (out.new.items ≡ out.old.items) }
{
    out.extend_from_slice(&number.to_be_bytes())?;
    Ok(())
}

/// Appends the eight bytes of a number. Without memory for them the bytes stay as they are.
#[tactic(auto, unfolding(sm_model::specs::Numbers::number64))]
pub fn append_u64(out: &mut Vec<u8>, number: u64) -> Result<(), NoMemory>
    ensures ok { OnOk result (out.new.items ≡ out.old.items ++ number64 number) }
    ensures err { OnErr result (out.new.items ≡ out.old.items) }
{
    out.extend_from_slice(&number.to_be_bytes())?;
    Ok(())
}

/// Appends a box's 32-bit size, which counts these eight bytes too, and its kind; the body goes behind. Without memory for all
/// of it the size may stand there alone.
#[tactic(auto, using(crate::proofs::FrontStays::stays_same, crate::proofs::FrontStays::stays_behind))]
pub fn append_head(out: &mut Vec<u8>, size: u32, kind: &[u8; 4]) -> Result<(), NoMemory>
    ensures ok { OnOk result (out.new.items ≡ out.old.items ++ box size kind.now []) }
    ensures err { OnErr result (StaysInFront out.old.items out.new.items) }
{
    append_u32(out, size)?;
    out.extend_from_slice(kind)?;
    Ok(())
}

/// A box with a 32-bit size.
pub fn put_box(alloc: Global, kind: [u8; 4], body: &[u8]) -> Result<Bytes, NoMemory>
    requires { length body.now + 8 < 2 ^ 32 }
    ensures { IfOk result (λ text. text ≡ box (8 + length body.now) kind body.now) }
{
    let mut out = Vec::with_capacity(alloc, 8 + body.len())?;
    append_head(&mut out, 8 + body.len() as u32, &kind)?;
    out.extend_from_slice(body)?;
    Ok(Bytes::from_vec(out))
}
