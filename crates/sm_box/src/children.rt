//! The children of a box, one after another (ISO/IEC 14496-12, 4.2).
ghost use Rattle.std.specs.Prelude.{◌≡◌};
ghost use Rattle.sm_box.specs.Walks.{IsChild};

use crate::head::kind_of;
use crate::whole::whole_at;
use std::marker::Model;

/// A child, the end, or a place where no whole box stands. Places count in bytes from the first byte of the body that
/// is walked.
#[derive(Clone, Copy, Debug, PartialEq, Eq)]
pub enum Child {
    Item {
        /// The four bytes of the type.
        kind: [u8; 4],
        /// The place of its first byte.
        at: u64,
        /// The place of its body, which for a `uuid` box begins with the user type.
        body_at: u64,
        /// Its size in bytes, which counts its head.
        size: u64,
    },
    Done,
    /// What stands here is cut, or its size is below its head or 0: a child has no way to say that it is open-ended.
    Bad {
        at: u64,
    },
}

/// The children of a body, from a place on. Contracts see the body and the place.
#[derive(Debug, Drop)]
pub struct Children<'a> {
    body: &'a [u8],
    at: usize,
}

impl<'a> Model for Children<'a> {
    ghost use Rattle.std.specs.Prelude.{◌≤◌, length};
    ghost use Rattle.sm_box.specs.Place.{Place};

    ghost Value = { Place };

    ghost view = { λ c. record { body = c.body.now; at = c.at } };

    ghost invariant = { λ c. c.at ≤ length c.body.now };
}

impl<'a> Children<'a> {
    /// The children of this body, before the first.
    pub fn new(body: &'a [u8]) -> Children<'a>
        ensures body { result.body ≡ body.now }
        ensures at { result.at ≡ 0 }
    {
        Children { body, at: 0 }
    }

    /// The next child, or `Done` at the end. It takes no memory, and stays where it is at `Done` and `Bad`, so that it
    /// answers the same again.
    pub fn next(&mut self) -> Child
        ensures { IsChild self.old self.new result }
    {
        let (_, left) = self.body.split_at(self.at);
        if left.is_empty() {
            return Child::Done;
        }
        let at = self.at as u64;
        match whole_at(left) {
            Some((head, size)) => {
                let kind = kind_of(left);
                self.at += size as usize;
                Child::Item {
                    kind,
                    at,
                    body_at: at + head,
                    size,
                }
            }
            None => Child::Bad { at },
        }
    }
}
