//! A whole box in front of bytes.
ghost use Rattle.std.specs.Prelude.{◌≡◌, false, IfSome, IfNone};
ghost use Rattle.sm_model.specs.Boxes.{starts_whole};
ghost use Rattle.sm_box.specs.Walks.{IsFront};

use crate::head::{BoxHead, Head};

/// The length of the head and the size, in bytes, of the whole box that stands in front. There is none where its head
/// is short, its size is 0 or below the head, or its body is cut. It takes no memory.
pub fn whole_at(bytes: &[u8]) -> Option<(u64, u64)>
    ensures some { IfSome result (λ x. IsFront bytes.now x.0 x.1) }
    ensures none { IfNone result (starts_whole bytes.now ≡ false) }
{
    match BoxHead::read(bytes) {
        Head::Whole {
            kind: _,
            head,
            size,
        } => {
            if size > bytes.len() as u64 {
                None
            } else {
                Some((head, size))
            }
        }
        Head::Short => None,
        Head::Bad => None,
        Head::OpenEnded => None,
    }
}
