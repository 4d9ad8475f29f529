//! The time and duration of a fragment (`tfxd`, [MS-SSTR] 2.2.4.4).
ghost use Rattle.std.specs.Prelude.{◌≡◌, ◌≤◌, ◌+◌, ◌==◌, length, IsTrue, if◌then◌else◌};
ghost use Rattle.sm_model.specs.Fields.{pair_at, tfxd_fits, tfxd_pair, tfxd};

use crate::fields::version;
use sm_box::{u32_at, u64_at};

// A time and a duration at a place, of 64 bits each or of 32.
#[tactic(auto, unfolding(sm_model::specs::Fields::pair_at))]
pub(crate) fn pair_at(wide: bool, at: usize, body: &[u8]) -> (u64, u64)
    requires { at + (if wide then 16 else 8) ≤ length body.now }
    ensures { result ≡ pair_at wide at body.now }
{
    if wide {
        (u64_at(body, at), u64_at(body, at + 8))
    } else {
        (u32_at(body, at) as u64, u32_at(body, at + 4) as u64)
    }
}

// Whether a body has a version that is known, and exactly the length of that version.
#[tactic(auto, unfolding(sm_model::specs::Fields::tfxd_fits))]
pub(crate) fn tfxd_fits(body: &[u8]) -> bool
    ensures { result ≡ tfxd_fits body.now }
{
    (body.len() == 12 && version(body) == 0) || (body.len() == 20 && version(body) == 1)
}

// The time and the duration.
#[tactic(auto, unfolding(sm_model::specs::Fields::tfxd_pair, sm_model::specs::Fields::tfxd_fits))]
pub(crate) fn tfxd_pair(body: &[u8]) -> (u64, u64)
    requires { IsTrue (tfxd_fits body.now) }
    ensures { result ≡ tfxd_pair body.now }
{
    pair_at(version(body) == 1, 4, body)
}

/// The absolute time and the duration, in ticks of the track's timescale, that the body of a `tfxd` says; the body
/// begins behind the user type. None where its version is neither 0 nor 1, or its length is not exactly 12 or 20 bytes
/// in turn. It takes no memory.
#[tactic(auto, unfolding(sm_model::specs::Fields::tfxd))]
pub fn read_tfxd(body: &[u8]) -> Option<(u64, u64)>
    ensures { result ≡ tfxd body.now }
{
    if !tfxd_fits(body) {
        return None;
    }
    Some(tfxd_pair(body))
}
