//! What is read of an origin is its log's, and what a play writes is what it was given.
ghost use Rattle.std.specs.Prelude.{◌≡◌, ◌+◌, ◌++◌, ℕ, List, Option, Some, None, true, length, All};
ghost use Rattle.std.specs.List.{list_any, AllByRecursion};
ghost use Rattle.std.specs.Io.KnownBytes.{Appends};
ghost use Rattle.sm_model.specs.declared.address.Address.{Address};
ghost use Rattle.sm_model.specs.declared.entry.Entry.{Entry};
ghost use Rattle.sm_model.specs.declared.run.RawFragment.{RawFragment};
ghost use Rattle.sm_model.specs.declared.track.Track.{Track};
ghost use Rattle.sm_model.specs.Channels.{IsNarrowTrack};
ghost use Rattle.sm_model.specs.Same.{is_same};
ghost use Rattle.sm_log.specs.Logs.{listed_in};
ghost use Rattle.sm_manin.specs.declared.listing.Listing.{Listing};
ghost use Rattle.sm_manin.specs.declared.listing.StreamListing.{StreamListing};
ghost use Rattle.sm_fetch.specs.declared.dial.Answer.{Answer};
ghost use Rattle.sm_fetch.specs.declared.got.Got.{Got};
ghost use Rattle.sm_fetch.specs.declared.got.Got.TheVariants as got;
ghost use Rattle.sm_fetch.specs.declared.place.Place.{Place};
ghost use Rattle.sm_fetch.specs.Origins.{FromOrigin};
ghost use Rattle.sm_fetch.specs.Requests.{fragment_request, manifest_request};
ghost use Rattle.sm_fetch.specs.Spelt.{SpellsFragment, SpellsManifest};
ghost use Rattle.sm_client.specs.declared.plan.Plan.{Plan};
ghost use Rattle.sm_client.specs.Came.{IsAnswered, came, came_texts, FollowOn, IsFrontOf};
ghost use Rattle.sm_client.specs.Origins.{IsListedAt, IsListedStream, IsTheOrigins, again};
ghost use Rattle.sm_client.specs.Plays.{Part, IsPart, first_times};
ghost use Rattle.sm_client.specs.Served.{IsMoment, IsPlace, IsUnrefused, IsWhole};
ghost use Rattle.sm_client.specs.Stands.{first_start, listed, miss_of};
ghost use Rattle.sm_client.specs.Turns.{Meaning, Turn};

/// What is read as a fragment out of an answer of an origin is what its log keeps at the address that was asked: an address of the
/// channel, at a start that is listed, asked for by the Url of the manifest. A whole answer that is no 500 and no 503 is no miss.
pub fn fragments_are_the_origins()
    ensures read { (place : Place) (channel : List Track) (log : List Entry) (pattern : List ℕ) (a : Address) (raw : RawFragment) (answer : Answer)
        → IsMoment channel log → IsListedAt place channel log pattern a → FromOrigin log (fragment_request place pattern a) answer
        → SpellsFragment a.time answer (got.Fragment raw) → IsTheOrigins log a raw }
    ensures given { (place : Place) (channel : List Track) (log : List Entry) (pattern : List ℕ) (a : Address) (g : Got) (answer : Answer) → IsMoment channel log
        → IsListedAt place channel log pattern a → FromOrigin log (fragment_request place pattern a) answer → IsUnrefused answer → SpellsFragment a.time answer g
        → IsWhole answer → miss_of g ≡ None }
{}

/// What is read as a manifest out of an answer of an origin is the listing of its log, in which each stream of the channel is listed. A
/// whole answer that is no 500 and no 503 is no miss.
pub fn listings_are_the_origins()
    ensures read { (place : Place) (channel : List Track) (log : List Entry) (l : Listing) (answer : Answer) → IsPlace place → All IsNarrowTrack channel
        → IsMoment channel log → FromOrigin log (manifest_request place) answer → SpellsManifest answer (got.Manifest l) → l ≡ again channel log }
    ensures given { (place : Place) (channel : List Track) (log : List Entry) (g : Got) (answer : Answer) → IsPlace place → All IsNarrowTrack channel
        → IsMoment channel log → FromOrigin log (manifest_request place) answer → IsUnrefused answer → SpellsManifest answer g → IsWhole answer
        → miss_of g ≡ None }
    ensures found { (channel : List Track) (log : List Entry) (name : List ℕ) → list_any (λ t. is_same t.name name) channel ≡ true
        → (s : StreamListing) × (listed name (again channel log).streams ≡ Some s) × IsListedStream channel name s × (s.times ≡ listed_in log name) }
{}

/// What a play writes of a stream, in the words of its exchanges. Each of them asked for the manifest or for a fragment of the stream. The track
/// gets the texts of the fragments that were given, all of them and in the order of the exchanges; each starts where the one before it ended.
/// Behind these stands nothing but a front of one that the last exchange gave.
pub fn what_was_given_is_written<P>()
    ensures answered { (m : Meaning P) (plan : Plan) (name : List ℕ) (number : ℕ) (start : Turn P) (track track' : Option (List ℕ)) (part : Part)
        → IsPart m plan name number start track track' part → AllByRecursion (IsAnswered plan name) (part.made ++ part.last) }
    ensures text { (m : Meaning P) (plan : Plan) (name : List ℕ) (number : ℕ) (start : Turn P) (track track' : Option (List ℕ)) (part : Part)
        → IsPart m plan name number start track track' part → Appends track track' (came_texts 1 (came part.made) ++ part.tail) }
    ensures follow { (m : Meaning P) (plan : Plan) (name : List ℕ) (number : ℕ) (start : Turn P) (track track' : Option (List ℕ)) (part : Part)
        → IsPart m plan name number start track track' part → FollowOn (first_start plan.from (first_times name part.made)) (came part.made) }
    ensures behind { (m : Meaning P) (plan : Plan) (name : List ℕ) (number : ℕ) (start : Turn P) (track track' : Option (List ℕ)) (part : Part)
        → IsPart m plan name number start track track' part
        → IsFrontOf (came_texts (length (came part.made) + 1) (came part.last)) part.tail }
{}
