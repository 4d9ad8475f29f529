//! The track of a `moof`, found without reading the rest.
ghost use Rattle.std.specs.Prelude.{◌≡◌, nat_eq, codes, Some, None, IfSome, IfNone};
ghost use Rattle.std.specs.Cmp.Lexicographic.{pointwise};
ghost use Rattle.sm_model.specs.Boxes.{IsOneBox};
ghost use Rattle.sm_model.specs.TrackId.{first_body, head_id, track_id};

use crate::whole::body_of;
use sm_box::{Child, Children, u32_at};

fn same_kind(kind: &[u8], name: &[u8]) -> bool
    ensures { result ≡ pointwise nat_eq kind.now name.now }
{
    kind == name
}

// The body of the first box of a kind.
fn first_of<'a>(body: &'a [u8], name: &[u8]) -> Option<&'a [u8]>
    ensures some { IfSome result (λ b. first_body name.now body.now ≡ Some b.now) }
    ensures none { IfNone result (first_body name.now body.now ≡ None) }
{
    let mut children = Children::new(body);
    'walk: loop {
        match children.next() {
            Child::Item {
                kind,
                at,
                body_at,
                size,
            } => {
                if same_kind(&kind, name) {
                    return Some(&body[body_at as usize..(at + size) as usize]);
                }
            }
            Child::Done => return None,
            Child::Bad { at: _ } => return None,
        }
    }
}

#[tactic(auto, unfolding(sm_model::specs::TrackId::head_id))]
fn head_id(body: &[u8]) -> Option<u32>
    ensures { result ≡ head_id body.now }
{
    if body.len() < 8 {
        None
    } else {
        Some(u32_at(body, 4))
    }
}

/// The track_ID in the first `tfhd` of the first `traf` of a whole `moof` (ISO/IEC 14496-12, 8.8.7), also where what
/// stands behind that `tfhd` would be refused. None where a child up to there is cut or has a bad size, there is no such
/// box, or it has no room for a track_ID. It takes no memory.
#[tactic(auto, unfolding(sm_model::specs::TrackId::track_id))]
pub fn track_of(moof: &[u8]) -> Option<u32>
    requires { IsOneBox moof.now }
    ensures { result ≡ track_id moof.now }
{
    match first_of(body_of(moof), b"traf") {
        None => None,
        Some(traf) => match first_of(traf, b"tfhd") {
            None => None,
            Some(head) => head_id(head),
        },
    }
}
