//! The sequence number of a `moof`, found without reading the rest.
ghost use Rattle.std.specs.Prelude.{◌≡◌, nat_eq, codes};
ghost use Rattle.sm_model.specs.Boxes.{IsOneBox};
ghost use Rattle.sm_moof.specs.Sequence.{number_in, sequence_in};

use crate::whole::body_of;
use sm_box::{Child, Children, u32_at};

// The number of a box of this kind with this body.
fn number_in(kind: &[u8], body: &[u8]) -> Option<u32>
    ensures { result ≡ number_in kind.now body.now }
{
    if kind == b"mfhd".as_slice() && body.len() == 8 {
        Some(u32_at(body, 4))
    } else {
        None
    }
}

/// The sequence number of a whole `moof` (ISO/IEC 14496-12, 8.8.5). None where its first child isn't an `mfhd` with 8 bytes of body. It
/// takes no memory.
pub fn sequence_of(moof: &[u8]) -> Option<u32>
    requires { IsOneBox moof.now }
    ensures { result ≡ sequence_in moof.now }
{
    let body = body_of(moof);
    let mut children = Children::new(body);
    match children.next() {
        Child::Item {
            kind,
            at,
            body_at,
            size,
        } => number_in(&kind, &body[body_at as usize..(at + size) as usize]),
        Child::Done => None,
        Child::Bad { at: _ } => None,
    }
}
