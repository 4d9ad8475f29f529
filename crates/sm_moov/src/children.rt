//! Boxes that stand at most once, and the fields in them.
ghost use Rattle.std.specs.Prelude.{◌≡◌, ◌≤◌, ℕ, List, length};
ghost use Rattle.std.specs.Option.{option_map};
ghost use Rattle.sm_model.specs.Moov.{first_child, number_behind_times, first_entry};

use sm_box::{find_kind, u32_at, whole_at};

/// The body of the first box of this type among the children of a body, which are all whole.
pub fn first_child<'a>(body: &'a [u8], name: &[u8; 4]) -> Option<&'a [u8]>
    ensures { option_map (λ b. b.now) result ≡ first_child name.now body.now }
{
    match find_kind(body, name) {
        Some(of_kind) => {
            if of_kind.some {
                Some(of_kind.first)
            } else {
                None
            }
        }
        None => None,
    }
}

/// The field behind version and flags and two times: the track_ID of a `tkhd` and the timescale of an `mdhd`
/// (ISO/IEC 14496-12, 8.3.2 and 8.4.2).
#[tactic(auto, unfolding(sm_model::specs::Moov::number_behind_times, sm_model::specs::Fields::version))]
pub fn number_behind_times(body: &[u8]) -> Option<u32>
    ensures { result ≡ number_behind_times body.now }
{
    if body.len() < 16 {
        return None;
    }
    if body[0] == 0 {
        Some(u32_at(body, 12))
    } else if body[0] == 1 && body.len() >= 24 {
        Some(u32_at(body, 20))
    } else {
        None
    }
}

/// The type of the first sample entry of an `stsd` (ISO/IEC 14496-12, 8.5.2).
#[tactic(auto, unfolding(sm_model::specs::Moov::first_entry, sm_model::specs::Fields::version, sm_model::specs::Boxes::box_of))]
pub fn first_entry(stsd: &[u8]) -> Option<&[u8]>
    ensures { option_map (λ b. b.now) result ≡ first_entry stsd.now }
{
    if stsd.len() < 16 || stsd[0] > 1 || u32_at(stsd, 4) == 0 {
        return None;
    }
    let (_, entry) = stsd.split_at(8);
    whole_at(entry)?;
    let (_, rest) = entry.split_at(4);
    let (kind, _) = rest.split_at(4);
    Some(kind)
}
