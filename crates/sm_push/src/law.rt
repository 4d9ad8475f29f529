//! Laws of push bodies. Each is the contract of a function that does nothing.
ghost use Rattle.std.specs.Prelude.{◌≡◌, ◌≤◌, ◌++◌, Bool, List, [], ℕ, length, map, true, false, None, All, Ok};
ghost use Rattle.sm_push.specs.Body.{body, body_end, IsFrontOf};
ghost use Rattle.sm_model.specs.Canonical.{Canonical, IsJoin};
ghost use Rattle.sm_push.specs.Joins.{given_by, FollowsHeader, HaveIds};
ghost use Rattle.sm_push.specs.Body;
ghost use Rattle.sm_model.specs.Boxes.{Box, IsBoxes, box_of};
ghost use Rattle.std.specs.List.{AllByRecursion};
ghost use Rattle.sm_push.specs.Boxes.{Splits, boxes_give};
ghost use Rattle.sm_push.specs.Validity.{IsValidItem};
ghost use Rattle.sm_push.specs.Written.{written_keys};
ghost use Rattle.sm_model.specs.declared.track.Track.{Track};
ghost use Rattle.sm_model.specs.Channels.{IsChannel, IsNarrowTrack};
ghost use Rattle.sm_push.specs.Header.{header_of};
ghost use Rattle.sm_smil.specs.LiveText.{live_text};
ghost use Rattle.sm_model.specs.MoovText.{bare_moov};

use sm_box::law::{whole_is_read, written_box_is_read};
use sm_model::law::{
    boxes_are, causes_are_without_defaults, frag_is_in_two_steps, read_is_sound, sizes_are_lengths,
    track_id_is_of_run, written_fragment_is_read,
};
use sm_moov::law::{timescales_are_positive, written_moov_is_read};
use sm_smil::{
    live_manifest_has_one_answer, live_manifests_are_valid, live_text_is_read_as_its_channel,
};

/// What a front of the bytes gives is a front of what they give.
pub fn front()
    ensures { (headerless : Bool) (p q : List ℕ) → IsFrontOf (body headerless p) (body headerless (p ++ q)) }
{}

/// All bytes are whole boxes and a rest in which no whole box stands in front, and give what these give, one box after the
/// other. The boxes are those of ISO/IEC 14496-12, 4.2.
pub fn by_boxes()
    ensures split { (headerless : Bool) (b : List ℕ) →
        (boxes : List (List ℕ)) × (rest : List ℕ) × Splits b boxes rest × (body headerless b ≡ boxes_give (Body.push_start headerless) boxes rest) }
    // However they are split.
    ensures any { (headerless : Bool) (b : List ℕ) (boxes : List (List ℕ)) (rest : List ℕ) →
        Splits b boxes rest → body headerless b ≡ boxes_give (Body.push_start headerless) boxes rest }
{
    whole_is_read();
}

/// Bytes are whole boxes without a rest exactly where they are a text of boxes, and the boxes are those of the text.
pub fn texts_of_boxes_have_no_rest()
    ensures text { (b : List ℕ) (boxes : List (List ℕ)) → Splits b boxes [] → IsBoxes b (map box_of boxes) }
    ensures boxes { (b : List ℕ) (xs : List Box) → IsBoxes b xs → (boxes : List (List ℕ)) × Splits b boxes [] × (xs ≡ map box_of boxes) }
{
    boxes_are();
}

/// Canonical texts one behind another are a whole headerless push: it gives their fragments in their order, each with its
/// track_ID and as a fragment of the track that this number stands for, and nothing else; and it may end behind them.
pub fn joined_texts_are_a_body()
    ensures items { (b : List ℕ) (cs : List Canonical) → IsJoin b cs → (body true b).items ≡ map given_by cs }
    ensures end { (b : List ℕ) (cs : List Canonical) → IsJoin b cs → body_end true b ≡ None }
{
    whole_is_read();
    written_box_is_read();
    sizes_are_lengths();
    written_fragment_is_read();
    frag_is_in_two_steps();
}

/// Canonical texts behind what may end there and has a header give the fragments of their tracks, in their order, each with its
/// track_ID, and nothing else; the header stays, and the body may end behind them.
pub fn joined_texts_follow_a_header()
    ensures items { (head b : List ℕ) (cs : List Canonical) → FollowsHeader head b cs
        → (body false b).items ≡ (body false head).items ++ map given_by cs }
    ensures header { (head b : List ℕ) (cs : List Canonical) → FollowsHeader head b cs → (body false b).header ≡ (body false head).header }
    ensures end { (head b : List ℕ) (cs : List Canonical) → FollowsHeader head b cs → body_end false b ≡ None }
{
    whole_is_read();
    written_box_is_read();
    sizes_are_lengths();
    written_fragment_is_read();
    frag_is_in_two_steps();
    causes_are_without_defaults();
    track_id_is_of_run();
}

/// No two tracks of a header share a track_ID.
pub fn tracks_of_a_header_differ()
    ensures { (headerless : Bool) (b : List ℕ) → HaveIds (body headerless b).header }
{
    live_manifest_has_one_answer();
    live_manifests_are_valid();
}

/// Bytes give no more items than there are bytes, so that their places fit wherever the number of bytes does.
pub fn items_are_no_more_than_bytes()
    ensures { (headerless : Bool) (b : List ℕ) → length (body headerless b).items ≤ length b }
{}

/// Every item that a push gives is valid: each fragment is, and the channel of each header.
pub fn items_are_valid()
    ensures { (headerless : Bool) (b : List ℕ) → AllByRecursion IsValidItem (body headerless b).items }
{
    live_manifest_has_one_answer();
    live_manifests_are_valid();
    timescales_are_positive();
    read_is_sound();
}

/// A valid channel that was written as a header, its live manifest and its bare `moov`, is read as the channel again, whose
/// tracks have the track_IDs 1, 2 and so on and no defaults. Each track of a real channel is narrow.
pub fn written_header_is_read()
    ensures { (channel : List Track) → IsChannel channel → All IsNarrowTrack channel
        → header_of (live_text channel) (box_of (bare_moov channel)).body ≡ Ok (record { channel = channel; tracks = written_keys 1 channel }) }
{
    live_text_is_read_as_its_channel();
    written_moov_is_read();
}
