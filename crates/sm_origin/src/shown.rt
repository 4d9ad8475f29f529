//! Laws of what replies show. Each is the contract of a function that only calls other laws.
ghost use Rattle.std.specs.Prelude.{◌≡◌, ◌≢◌, ◌++◌, ℕ, true, List, Some, None, IsSome};
ghost use Rattle.http.specs.StatusCode.{IsStatusCode};
ghost use Rattle.sm_model.specs.declared.act.Act.{Act};
ghost use Rattle.sm_model.specs.declared.act.Act.TheVariants.{Manifest, Fragment as Ask, Frag, Refuse};
ghost use Rattle.sm_model.specs.declared.address.Address.{Address};
ghost use Rattle.sm_model.specs.declared.cause.Refusal.{Refusal};
ghost use Rattle.sm_model.specs.declared.entry.Entry.{Entry};
ghost use Rattle.sm_model.specs.declared.fragment.Fragment.{Fragment};
ghost use Rattle.sm_model.specs.declared.target.Target.TheVariants as targets;
ghost use Rattle.sm_model.specs.Entries.{address_of};
ghost use Rattle.sm_log.specs.Logs.{kept_at};
ghost use Rattle.sm_site.specs.Clauses.{Rose};
ghost use Rattle.sm_site.specs.Image.{Image};
ghost use Rattle.sm_archive.specs.Store.{IsStore};
ghost use Rattle.sm_head.specs.Shown.{shows_status};
ghost use Rattle.sm_reply.specs.declared.reply.Reply.{Reply};
ghost use Rattle.sm_origin.specs.Machine.{Machine, Step, entry_of};
ghost use Rattle.sm_origin.specs.Shown.{IsReal, Claim, Holds, Asked, Shows};

use sm_head::law::{part_shows_front_of_body, part_shows_its_status};
use sm_log::law::{
    kept_is_added, listed_times_stay, sound_logs_can_be_listed, sound_logs_grow,
    what_is_ahead_is_listed, what_is_kept_is_valid,
};
use sm_manout::law::manifests_list_what_is_kept;
use sm_moof::fragments_show_themselves;

/// A reply is told apart by its status. Each part of one that is sent from its own bytes shows no other.
pub fn replies_tell_by_their_status()
    // What only reads is always replied to.
    ensures asked { (a b : ℕ) (m n : Machine) (act : Act) (r : Reply) → Step (Rose a b) m act n r → entry_of act ≡ None → r.status ≢ 0 }
    // A header or a fragment that is replied to is refused, and the connection closes.
    ensures refused { (a b : ℕ) (m n : Machine) (act : Act) (r : Reply) (e : Entry) → Step (Rose a b) m act n r → entry_of act ≡ Some e → r.status ≢ 0
        → (r.status ≢ 200) × (r.close ≡ true) }
    ensures refusal { (a b : ℕ) (m n : Machine) (cause : Refusal) (r : Reply) → Step (Rose a b) m (Refuse cause) n r → r.status ≢ 200 }
    // None is taken for what lets a client go on.
    ensures not_interim { (a b : ℕ) (m n : Machine) (act : Act) (r : Reply) → Step (Rose a b) m act n r → r.status ≢ 100 }
    ensures own { (a b : ℕ) (m n : Machine) (act : Act) (r : Reply) → Step (Rose a b) m act n r → r.status ≢ 0 → r.status ≢ 500
        → (part more : List ℕ) → part ++ more ≡ r.bytes → (other : ℕ) → IsStatusCode other → shows_status other part ≡ true → other ≡ r.status }
{
    part_shows_its_status();
}

/// What a part of a reply that says that all is well shows to a request that only reads is held by the log that was asked, where that is
/// one of real entries.
pub fn what_is_shown_is_held()
    ensures manifest { (a b : ℕ) (m n : Machine) (r : Reply) → IsReal m.log → Step (Rose a b) m Manifest n r → r.status ≢ 500
        → (part more : List ℕ) → part ++ more ≡ r.bytes → shows_status 200 part ≡ true
        → (claim : Claim) → Shows (Asked targets.Manifest) part claim → Holds m.log claim }
    ensures fragment { (a b : ℕ) (m n : Machine) (address : Address) (r : Reply) → IsReal m.log → Step (Rose a b) m (Ask address) n r → r.status ≢ 500
        → (part more : List ℕ) → part ++ more ≡ r.bytes → shows_status 200 part ≡ true
        → (claim : Claim) → Shows (Asked (targets.Fragment address)) part claim → Holds m.log claim }
{
    part_shows_its_status();
    part_shows_front_of_body();
    manifests_list_what_is_kept();
    fragments_show_themselves();
    sound_logs_can_be_listed();
    what_is_ahead_is_listed();
    what_is_kept_is_valid();
}

/// A fragment of a push that is answered by nothing is kept at its address.
pub fn a_silent_fragment_is_kept()
    ensures { (a b : ℕ) (m n : Machine) (f : Fragment) (r : Reply) → Step (Rose a b) m (Frag f) n r → r.status ≡ 0
        → IsSome (kept_at n.log (address_of f)) }
{
    kept_is_added();
}

/// What a log holds is held by each that begins with it.
pub fn what_is_held_stays()
    ensures { (log more : List Entry) (claim : Claim) → Holds log claim → Holds (log ++ more) claim }
{
    listed_times_stay();
}

/// A front of a log of real entries is one, and so is the log of every store.
pub fn logs_of_stores_are_real()
    ensures front { (log more : List Entry) → IsReal (log ++ more) → IsReal log }
    ensures store { (log : List Entry) (image : Image) → IsStore log image → IsReal log }
{
    sound_logs_grow();
}
