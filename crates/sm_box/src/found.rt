//! The boxes of one kind among the children of a box.
ghost use Rattle.std.specs.Prelude.{◌≡◌, ◌≤◌, ◌++◌, ◌∷◌, [], ◌&&◌, List, ℕ, length, IsTrue, nat_eq, codes};
ghost use Rattle.std.specs.Option.{option_map};
ghost use Rattle.std.specs.List.{starts_with};
ghost use Rattle.std.specs.Cmp.Lexicographic.{pointwise};
ghost use Rattle.sm_model.specs.Boxes.{Box, boxes};
ghost use Rattle.sm_model.specs.Found.{found, bodies, user_bodies};
ghost use Rattle.sm_box.specs.Seen.{seen};

use crate::children::{Child, Children};

/// Whether there is such a box, whether there is a second, and the first one's body, which is empty where there is
/// none.
#[derive(Clone, Copy, Debug)]
pub struct Found<'a> {
    pub some: bool,
    pub twice: bool,
    pub first: &'a [u8],
}

fn is_kind(kind: &[u8], name: &[u8]) -> bool
    ensures { result ≡ pointwise nat_eq kind.now name.now }
{
    kind == name
}

fn is_user(kind: &[u8], body: &[u8], user: &[u8]) -> bool
    ensures value { result ≡ (pointwise nat_eq kind.now (codes "uuid") && starts_with nat_eq body.now user.now) }
    ensures room { IsTrue result → length user.now ≤ length body.now }
{
    kind == b"uuid".as_slice() && body.starts_with(user)
}

impl<'a> Found<'a> {
    /// What is found among no boxes.
    pub fn new() -> Found<'a>
        ensures { seen result ≡ found [] }
    {
        Found {
            some: false,
            twice: false,
            first: &[],
        }
    }

    // One more box that counts, with this body.
    fn add(&mut self, body: &'a [u8])
        ensures { (bs : List (List ℕ)) → seen self.old ≡ found bs → seen self.new ≡ found (bs ++ body.now ∷ []) }
    {
        if self.some {
            self.twice = true;
        } else {
            self.some = true;
            self.first = body;
        }
    }

    /// One more child of this type and body. It counts where its type is `name`.
    #[tactic(auto, using(crate::proofs::FoundLemmas::one_kind, crate::proofs::FoundLemmas::other_kind))]
    pub fn add_kind(&mut self, name: &[u8; 4], kind: &[u8; 4], body: &'a [u8])
        ensures { (xs : List Box) (x : Box) → x.kind ≡ kind.now → x.body ≡ body.now
            → seen self.old ≡ found (bodies name.now xs) → seen self.new ≡ found (bodies name.now (xs ++ x ∷ [])) }
    {
        if is_kind(kind, name) {
            self.add(body);
        }
    }

    /// One more child of this type and body. It counts where it is a `uuid` box of the user type `user`, and its body
    /// is then what stands behind the user type. A body that is too short for a user type has none.
    #[tactic(auto, using(crate::proofs::FoundLemmas::one_user, crate::proofs::FoundLemmas::other_user))]
    pub fn add_user(&mut self, user: &[u8; 16], kind: &[u8; 4], body: &'a [u8])
        ensures { (xs : List Box) (x : Box) → x.kind ≡ kind.now → x.body ≡ body.now
            → seen self.old ≡ found (user_bodies user.now xs) → seen self.new ≡ found (user_bodies user.now (xs ++ x ∷ [])) }
    {
        if is_user(kind, body, user) {
            let (_, rest) = body.split_at(16);
            self.add(rest);
        }
    }
}

/// The boxes of one type among the children of a body, whatever the others are; None where a child is cut or has a bad
/// size. It takes no memory.
#[tactic(auto, unfolding(sm_model::specs::Found::bodies))]
pub fn find_kind<'a>(body: &'a [u8], name: &[u8; 4]) -> Option<Found<'a>>
    ensures { option_map seen result ≡ option_map (λ xs. found (bodies name.now xs)) (boxes body.now) }
{
    let mut of_kind = Found::new();
    let mut children = Children::new(body);
    'walk: loop {
        match children.next() {
            Child::Item {
                kind,
                at,
                body_at,
                size,
            } => of_kind.add_kind(name, &kind, &body[body_at as usize..(at + size) as usize]),
            Child::Done => return Some(of_kind),
            Child::Bad { at: _ } => return None,
        }
    }
}
