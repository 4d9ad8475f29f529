//! What a `trak` says (ISO/IEC 14496-12, 8.3.1).
ghost use Rattle.std.specs.Prelude.{◌≡◌};
ghost use Rattle.std.specs.Option.{option_map};
ghost use Rattle.sm_model.specs.Moov.{tkhd_id, timescale, entry_type, is_encrypted, trak};

use crate::children::{first_child, first_entry, number_behind_times};
use sm_model::{NO_DEFAULTS, TrackHead, is_same};

#[tactic(auto, unfolding(sm_model::specs::Moov::tkhd_id))]
fn track_id(trak: &[u8]) -> Option<u32>
    ensures { result ≡ tkhd_id trak.now }
{
    number_behind_times(first_child(trak, b"tkhd")?)
}

#[tactic(auto, unfolding(sm_model::specs::Moov::timescale))]
fn timescale(mdia: &[u8]) -> Option<u32>
    ensures { result ≡ timescale mdia.now }
{
    let ticks = number_behind_times(first_child(mdia, b"mdhd")?)?;
    if ticks == 0 { None } else { Some(ticks) }
}

#[tactic(auto, unfolding(sm_model::specs::Moov::entry_type))]
fn entry_type(mdia: &[u8]) -> Option<&[u8]>
    ensures { option_map (λ b. b.now) result ≡ entry_type mdia.now }
{
    let minf = first_child(mdia, b"minf")?;
    let stbl = first_child(minf, b"stbl")?;
    let stsd = first_child(stbl, b"stsd")?;
    first_entry(stsd)
}

fn is_encrypted(kind: &[u8]) -> bool
    ensures { result ≡ is_encrypted kind.now }
{
    is_same(kind, b"encv") || is_same(kind, b"enca")
}

/// The head of a track, with zero defaults.
#[tactic(auto, unfolding(sm_model::specs::Moov::trak))]
pub fn read_trak(body: &[u8]) -> Option<TrackHead>
    ensures { result ≡ trak body.now }
{
    let id = track_id(body)?;
    let mdia = first_child(body, b"mdia")?;
    let timescale = timescale(mdia)?;
    let kind = entry_type(mdia)?;
    Some(TrackHead {
        id,
        timescale,
        protected: is_encrypted(kind),
        defaults: NO_DEFAULTS,
    })
}
