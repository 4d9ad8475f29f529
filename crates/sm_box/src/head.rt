//! The head of a box (ISO/IEC 14496-12, 4.2).
ghost use Rattle.std.specs.Prelude.{◌≡◌, ◌≤◌, length, take, drop};
ghost use Rattle.sm_box.specs.Heads.{head_of};

use crate::numbers::{u32_at, u64_at};

/// What bytes say of the box that they begin. Sizes and lengths are in bytes.
#[derive(Clone, Copy, Debug, PartialEq, Eq)]
pub enum Head {
    /// The head is there and its size is sound. The body may be cut.
    Whole {
        /// The four bytes of the type.
        kind: [u8; 4],
        /// The length of the head: 8, or 16 where the size has 64 bits. The user type of a `uuid` box is no part of it.
        head: u64,
        /// The size of the whole box, which counts the head.
        size: u64,
    },
    /// The head needs more bytes: there are fewer than 8, or fewer than 16 where the size has 64 bits.
    Short,
    /// The size is below the length of the head.
    Bad,
    /// The size field is 0: the box would go on to the end of its file.
    OpenEnded,
}

/// The reader of heads.
pub struct BoxHead;

// The type of the box that the bytes begin.
#[tactic(auto, using(crate::proofs::FourBytes::four_are))]
pub(crate) fn kind_of(bytes: &[u8]) -> [u8; 4]
    requires { 8 ≤ length bytes.now }
    ensures { result ≡ take 4 (drop 4 bytes.now) }
{
    let (_, rest) = bytes.split_at(4);
    let (kind, _) = rest.split_at(4);
    [kind[0], kind[1], kind[2], kind[3]]
}

impl BoxHead {
    /// The head of the box that the bytes begin. It takes no memory, and looks at the first 16 bytes at most: an answer
    /// other than `Short` stays the same whatever bytes follow.
    #[tactic(auto, unfolding(crate::specs::Heads::head_of, sm_model::specs::Boxes::head_len, sm_model::specs::Boxes::box_len))]
    pub fn read(bytes: &[u8]) -> Head
        ensures { result ≡ head_of bytes.now }
    {
        if bytes.len() < 8 {
            return Head::Short;
        }
        let field = u32_at(bytes, 0);
        if field == 0 {
            return Head::OpenEnded;
        }
        let kind = kind_of(bytes);
        if field == 1 {
            if bytes.len() < 16 {
                return Head::Short;
            }
            let size = u64_at(bytes, 8);
            if size < 16 {
                return Head::Bad;
            }
            return Head::Whole {
                kind,
                head: 16,
                size,
            };
        }
        if field < 8 {
            return Head::Bad;
        }
        Head::Whole {
            kind,
            head: 8,
            size: field as u64,
        }
    }
}
