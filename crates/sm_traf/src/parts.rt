//! The boxes that stand in a `traf` (ISO/IEC 14496-12, 8.8.6).
ghost use Rattle.std.specs.Prelude.{◌≡◌, ◌++◌, ◌∷◌, [], List, Some, None, IfSome, IfNone};
ghost use Rattle.sm_model.specs.Boxes.{Box, boxes};
ghost use Rattle.sm_model.specs.Frag.{traf_of};
ghost use Rattle.sm_traf.specs.Parts.{seen_parts};

use sm_box::{Child, Children, Found};

// The type of the box of a fragment's time and duration: 6d1d9b05-42d5-44e6-80e2-141daff757b2 ([MS-SSTR] 2.2.4.4).
pub(crate) const TFXD: [u8; 16] = [
    0x6d, 0x1d, 0x9b, 0x05, 0x42, 0xd5, 0x44, 0xe6, 0x80, 0xe2, 0x14, 0x1d, 0xaf, 0xf7, 0x57, 0xb2,
];

// The type of the box of the fragments ahead: d4807ef2-ca39-4695-8e54-26cb9e46a79f ([MS-SSTR] 2.2.4.5).
pub(crate) const TFRF: [u8; 16] = [
    0xd4, 0x80, 0x7e, 0xf2, 0xca, 0x39, 0x46, 0x95, 0x8e, 0x54, 0x26, 0xcb, 0x9e, 0x46, 0xa7, 0x9f,
];

// a2394f52-5a9b-4f14-a244-6c427c648df4
const SEALED: [u8; 16] = [
    0xa2, 0x39, 0x4f, 0x52, 0x5a, 0x9b, 0x4f, 0x14, 0xa2, 0x44, 0x6c, 0x42, 0x7c, 0x64, 0x8d, 0xf4,
];

// The boxes of a `traf` that are looked at, by their types. All others are skipped.
#[derive(Clone, Copy, Debug)]
pub(crate) struct Parts<'a> {
    // `tfhd`
    pub head: Found<'a>,
    // `trun`
    pub run: Found<'a>,
    // `tfxd`
    pub time: Found<'a>,
    // `tfrf`
    pub ahead: Found<'a>,
    // `senc`
    pub senc: Found<'a>,
    // the sample encryption box, which is a `senc` under a user type
    pub sealed: Found<'a>,
}

impl<'a> Parts<'a> {
    #[tactic(auto, unfolding(sm_model::specs::Found::bodies, sm_model::specs::Found::user_bodies))]
    fn new() -> Parts<'a>
        ensures { seen_parts result ≡ traf_of [] }
    {
        Parts {
            head: Found::new(),
            run: Found::new(),
            time: Found::new(),
            ahead: Found::new(),
            senc: Found::new(),
            sealed: Found::new(),
        }
    }

    // One more child.
    fn add(&mut self, kind: &[u8; 4], body: &'a [u8])
        ensures { (xs : List Box) (x : Box) → x.kind ≡ kind.now → x.body ≡ body.now
            → seen_parts self.old ≡ traf_of xs → seen_parts self.new ≡ traf_of (xs ++ x ∷ []) }
    {
        self.head.add_kind(b"tfhd", kind, body);
        self.run.add_kind(b"trun", kind, body);
        self.time.add_user(&TFXD, kind, body);
        self.ahead.add_user(&TFRF, kind, body);
        self.senc.add_kind(b"senc", kind, body);
        self.sealed.add_user(&SEALED, kind, body);
    }
}

// The boxes of a body by their types; None where one is cut or has a bad size.
pub(crate) fn parts_of(body: &[u8]) -> Option<Parts<'_>>
    ensures some { IfSome result (λ parts. (xs : List Box) × (boxes body.now ≡ Some xs) × (seen_parts parts ≡ traf_of xs)) }
    ensures none { IfNone result (boxes body.now ≡ None) }
{
    let mut parts = Parts::new();
    let mut children = Children::new(body);
    'walk: loop {
        match children.next() {
            Child::Item {
                kind,
                at,
                body_at,
                size,
            } => parts.add(&kind, &body[body_at as usize..(at + size) as usize]),
            Child::Done => return Some(parts),
            Child::Bad { at: _ } => return None,
        }
    }
}
