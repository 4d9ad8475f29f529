//! The head of a track fragment (`tfhd`, ISO/IEC 14496-12, 8.8.7).
ghost use Rattle.std.specs.Prelude.{◌≡◌, ◌≤◌, length, IsTrue};
ghost use Rattle.sm_model.specs.Numbers.{number32_at};
ghost use Rattle.sm_model.specs.Fields.{tfhd_len, tfhd_fits, tfhd_at, defaults_of};

use crate::fields::{field, given};
use sm_box::u32_at;
use sm_model::Defaults;

// The length of a body with these flags.
#[tactic(auto, unfolding(sm_model::specs::Fields::tfhd_len))]
fn tfhd_len(word: u32) -> usize
    ensures { result ≡ tfhd_len word }
{
    8 + field(word, 0x1, 8)
        + field(word, 0x2, 4)
        + field(word, 0x8, 4)
        + field(word, 0x10, 4)
        + field(word, 0x20, 4)
}

// Whether a body has exactly the length that its flags give.
#[tactic(auto, unfolding(sm_model::specs::Fields::tfhd_fits))]
pub(crate) fn tfhd_fits(body: &[u8]) -> bool
    ensures value { result ≡ tfhd_fits body.now }
    ensures room { IsTrue result → 8 ≤ length body.now }
{
    body.len() >= 8 && body.len() == tfhd_len(u32_at(body, 0))
}

// Where the default duration stands.
#[tactic(auto, unfolding(sm_model::specs::Fields::tfhd_at))]
fn tfhd_at(word: u32) -> usize
    ensures value { result ≡ tfhd_at word }
    ensures bound { result ≤ 20 }
{
    8 + field(word, 0x1, 8) + field(word, 0x2, 4)
}

// The defaults that the body gives, and for those that it lacks the ones of the track.
#[tactic(auto, unfolding(sm_model::specs::Fields::defaults_of, sm_model::specs::Fields::tfhd_fits, sm_model::specs::Fields::tfhd_len, sm_model::specs::Fields::tfhd_at))]
pub(crate) fn defaults_of(defaults: &Defaults, body: &[u8]) -> Defaults
    requires fits { IsTrue (tfhd_fits body.now) }
    requires len { length body.now ≡ tfhd_len (number32_at 0 body.now) }
    requires eight { 8 ≤ length body.now }
    ensures { result ≡ defaults_of defaults.now body.now }
{
    let word = u32_at(body, 0);
    let duration_at = tfhd_at(word);
    let size_at = duration_at + field(word, 0x8, 4);
    let flags_at = size_at + field(word, 0x10, 4);
    Defaults {
        duration: given(word, 0x8, duration_at, body, defaults.duration),
        size: given(word, 0x10, size_at, body, defaults.size),
        flags: given(word, 0x20, flags_at, body, defaults.flags),
    }
}
