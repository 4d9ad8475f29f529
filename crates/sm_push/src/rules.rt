//! Laws of the boxes at the top of a push body, in the words of its rules. Each is the contract of a function that does
//! nothing.
ghost use Rattle.std.specs.Prelude.{◌≡◌, ◌<◌, ◌++◌, Bool, List, ℕ, None, false, true, length, is_some};
ghost use Rattle.std.specs.List.{AllByRecursion};
ghost use Rattle.sm_push.specs.Body.{body};
ghost use Rattle.sm_model.specs.Boxes.{IsOneBox, starts_whole};
ghost use Rattle.sm_push.specs.Boxes.{bytes_of};
ghost use Rattle.sm_push.specs.Rules.{box_means, cut_means, header_said, last_moof, tracks_said, Adds, Stops};

use sm_box::law::whole_is_read;
use sm_model::law::{causes_are_without_defaults, frag_is_in_two_steps, track_id_is_of_run};

/// What one box more means, by the boxes that came before it and nothing else. The header is that of the first live server
/// manifest box and the first `moov`, and comes at the later of the two; behind each `moof` comes an `mdat`, and the two give
/// the fragment of the `moof`'s track; all other boxes are passed over. What is refused, why and at which place is
/// `box_means` for a whole box, and `cut_means` for one of which only a front is there. After a refusal nothing comes.
pub fn by_rules()
    ensures whole { (headerless : Bool) (before : List (List ℕ)) (box : List ℕ) → AllByRecursion IsOneBox before → IsOneBox box
        → (body headerless (bytes_of before)).refusal ≡ None
        → Adds (body headerless (bytes_of before)) (body headerless (bytes_of before ++ box)) (box_means headerless before box) }
    ensures cut { (headerless : Bool) (before : List (List ℕ)) (rest : List ℕ) → AllByRecursion IsOneBox before → starts_whole rest ≡ false
        → (body headerless (bytes_of before)).refusal ≡ None
        → Stops (body headerless (bytes_of before)) (body headerless (bytes_of before ++ rest)) (cut_means headerless before rest) }
    // A body of whole boxes may end there, but behind a moof; one whose last box is cut may not.
    ensures ends { (headerless : Bool) (before : List (List ℕ)) → AllByRecursion IsOneBox before → (body headerless (bytes_of before)).refusal ≡ None
        → (body headerless (bytes_of before)).inside ≡ is_some (last_moof before) }
    ensures inside { (headerless : Bool) (before : List (List ℕ)) (rest : List ℕ) → AllByRecursion IsOneBox before → starts_whole rest ≡ false
        → (body headerless (bytes_of before)).refusal ≡ None → 0 < length rest → (body headerless (bytes_of before ++ rest)).refusal ≡ None
        → (body headerless (bytes_of before ++ rest)).inside ≡ true }
    ensures header { (headerless : Bool) (before : List (List ℕ)) → AllByRecursion IsOneBox before → (body headerless (bytes_of before)).refusal ≡ None
        → (body headerless (bytes_of before)).header ≡ tracks_said (header_said before) }
{
    whole_is_read();
    frag_is_in_two_steps();
    causes_are_without_defaults();
    track_id_is_of_run();
}
