//! The fragment that a body is.
ghost use Rattle.std.specs.Prelude.{◌≡◌, IfOk, MatchOption, codes, nat_le};
ghost use Rattle.sm_model.specs.Boxes.{IsOneBox, box_of};
ghost use Rattle.sm_model.specs.Found.{is_kind};
ghost use Rattle.sm_model.specs.Fragments.{sample_bytes};
ghost use Rattle.sm_fetch.specs.Spelt.{IsFragmentAt};
ghost use Rattle.sm_fetch.specs.TwoBoxes.{IsPair, HasNoPair, HasNoFragment};

use sm_box::law::whole_stays;
use sm_box::whole_at;
use sm_model::law::read_is_sound;
use sm_model::{Defaults, NoMemory, RawFragment, Sample};
use sm_moof::{MoofFault, is_one_box, read_fragment};
use std::alloc::Global;

// What holds where no `trex` says it.
const NO_DEFAULTS: Defaults = Defaults {
    duration: 0,
    size: 0,
    flags: 0,
};

// Whether it is a `moof`.
#[tactic(auto, using(sm_moof::proofs::WholeLemmas::long), unfolding(sm_model::specs::Boxes::box_of))]
fn is_moof(bytes: &[u8]) -> bool
    requires { IsOneBox bytes.now }
    ensures { result ≡ is_kind (codes "moof") (box_of bytes.now) }
{
    let (_, rest) = bytes.split_at(4);
    let (kind, _) = rest.split_at(4);
    kind == b"moof".as_slice()
}

// The `moof` and the box behind it, where the bytes are these two.
pub(crate) fn two_boxes(body: &[u8]) -> Option<(&[u8], &[u8])>
    ensures { MatchOption result (HasNoPair body.now) (λ x. IsPair body.now x.0.now x.1.now) }
{
    whole_stays();
    let Some((_, size)) = whole_at(body) else {
        return None;
    };
    let (moof, mdat) = body.split_at(size as usize);
    if !is_one_box(moof) {
        return None;
    }
    if !is_moof(moof) {
        return None;
    }
    if !is_one_box(mdat) {
        return None;
    }
    Some((moof, mdat))
}

// Whether the samples have at most 67,108,864 bytes.
fn are_short(samples: &[Sample]) -> bool
    ensures { result ≡ nat_le (sample_bytes samples.now) 67108864 }
{
    let mut left: u64 = 67_108_864;
    for sample in samples {
        let size = sample.bytes.len();
        if size > left {
            return false;
        }
        left -= size;
    }
    true
}

// The fragment that a body is: one `moof` and one `mdat`, a valid fragment that starts then, where no default holds for its
// samples. Their bytes are copied once.
pub(crate) fn read_samples(
    alloc: Global,
    time: u64,
    body: &[u8],
) -> Result<Option<RawFragment>, NoMemory>
    ensures { IfOk result (λ found. MatchOption found (HasNoFragment time body.now) (λ raw. IsFragmentAt time body.now raw)) }
{
    read_is_sound();
    let Some((moof, mdat)) = two_boxes(body) else {
        return Ok(None);
    };
    match read_fragment(alloc, moof, mdat, &NO_DEFAULTS) {
        Ok(raw) => {
            if raw.time != time {
                return Ok(None);
            }
            if !are_short(raw.samples.as_slice()) {
                return Ok(None);
            }
            Ok(Some(raw))
        }
        Err(MoofFault::Refused(_)) => Ok(None),
        Err(MoofFault::NoMemory) => Err(NoMemory),
    }
}
