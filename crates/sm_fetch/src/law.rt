//! Laws of answers. Each is the contract of a function that does nothing.
ghost use Rattle.std.specs.Prelude.{◌≡◌, ◌<◌, ◌++◌, ℕ, List, decimal, length};
ghost use Rattle.sm_model.specs.declared.framing.Framing.TheVariants.{Chunked};
ghost use Rattle.sm_model.specs.declared.address.Address.{Address};
ghost use Rattle.sm_model.specs.declared.target.Target.TheVariants.{Fragment};
ghost use Rattle.sm_addr.specs.Written.{target_written};
ghost use Rattle.sm_body.specs.declared.place.Place.TheVariants.{Ended};
ghost use Rattle.sm_body.specs.Places.{start, place_after, body_from};
ghost use Rattle.sm_fetch.specs.declared.dial.Answer.{Answer};
ghost use Rattle.sm_fetch.specs.declared.got.Got.{Got};
ghost use Rattle.sm_fetch.specs.declared.place.Place.{Place};
ghost use Rattle.sm_fetch.specs.declared.push.Pushed.{Pushed};
ghost use Rattle.sm_fetch.specs.Answered.{IsReply, IsCutReply};
ghost use Rattle.sm_fetch.specs.OneReading.{AreOne, AreOnePush};
ghost use Rattle.sm_fetch.specs.Patterns.{filled, HasNoBrace, IsBitrateField, IsStartField, written_url};
ghost use Rattle.sm_fetch.specs.Requests.{chunked, fragment_target};
ghost use Rattle.sm_fetch.specs.Spelt.{SpellsManifest, SpellsFragment, SpellsPush};

/// What an answer spells is one thing, to each who asks, beside want of memory.
pub fn answer_spells_one()
    ensures manifest { (answer : Answer) (g h : Got) → SpellsManifest answer g → SpellsManifest answer h → AreOne g h }
    ensures fragment { (time : ℕ) (answer : Answer) (g h : Got) → SpellsFragment time answer g → SpellsFragment time answer h → AreOne g h }
    ensures push { (answer : Answer) (p q : Pushed) → SpellsPush answer p → SpellsPush answer q → AreOnePush p q }
{}

/// Each proper front of a reply is cut, and told as that.
pub fn fronts_are_cut()
    ensures { (bytes front more body : List ℕ) (status at : ℕ) → IsReply bytes status at body → bytes ≡ front ++ more → 0 < length more → IsCutReply front }
{}

/// The Url of a manifest with its two fields, in either order and spelling, is filled as it says: what stands beside the fields
/// stays as it is.
pub fn fields_are_filled()
    ensures bitrate_first { (bitrate time : ℕ) (before middle after first second : List ℕ) → HasNoBrace before → HasNoBrace middle → HasNoBrace after
        → IsBitrateField first → IsStartField second
        → filled bitrate time (before ++ (first ++ (middle ++ (second ++ after)))) ≡ before ++ (decimal bitrate ++ (middle ++ (decimal time ++ after))) }
    ensures start_first { (bitrate time : ℕ) (before middle after first second : List ℕ) → HasNoBrace before → HasNoBrace middle → HasNoBrace after
        → IsStartField first → IsBitrateField second
        → filled bitrate time (before ++ (first ++ (middle ++ (second ++ after)))) ≡ before ++ (decimal time ++ (middle ++ (decimal bitrate ++ after))) }
{}

/// The chunks of a push are a chunked text to its end, and whoever reads that has the body that was pushed.
pub fn pushed_body_is_read()
    ensures ends { (body : List ℕ) → place_after (start Chunked) (chunked body) ≡ Ended }
    ensures body { (body : List ℕ) → body_from (start Chunked) (chunked body) ≡ body }
{}

/// By the Url that this names the stream's fragments with, the target of each is the one that its address is written as.
pub fn written_url_names_its_fragment()
    ensures { (place : Place) (a : Address) → fragment_target place (written_url a.stream) a ≡ target_written place.path (Fragment a) }
{}
