//! Laws of runs. Each is the contract of a function that only calls other laws.
ghost use Rattle.std.specs.Prelude.{◌≡◌, ◌++◌, ◌∷◌, ◌≤◌, ℕ, Bool, List, [], None, Some, codes, true};
ghost use Rattle.sm_model.specs.declared.act.Act.TheVariants.{Fragment as Ask};
ghost use Rattle.sm_model.specs.declared.address.Address.{Address};
ghost use Rattle.sm_model.specs.declared.entry.Entry.{Entry};
ghost use Rattle.sm_model.specs.declared.fragment.Fragment.{Fragment};
ghost use Rattle.sm_log.specs.Logs.{kept_at};
ghost use Rattle.sm_site.specs.Meanings.{Item};
ghost use Rattle.sm_head.specs.declared.reply.Content.TheVariants.{Plain};
ghost use Rattle.sm_head.specs.Replies.{reply_text};
ghost use Rattle.sm_reply.specs.declared.reply.Counted.{Counted};
ghost use Rattle.sm_origin.specs.Machine.{Machine, Fresh, judged, entry_of};
ghost use Rattle.sm_serve.specs.Faultless.{IsFaultless, IsGiven, IsTaken};
ghost use Rattle.sm_serve.specs.Run.{Stepped, Point, Run};
ghost use Rattle.sm_serve.specs.Moments.{machine_at, IsOneOf};
ghost use Rattle.sm_serve.specs.Sent.{openings, IsFrontOfTexts};
ghost use Rattle.sm_serve.specs.Standing.{History};
ghost use Rattle.sm_serve.specs.Serving.{Since};
ghost use Rattle.sm_serve.specs.declared.texts.TheConstants.{TOO_MANY};

use sm_log::law::{sound_logs_grow, what_is_kept_stays};

/// The reply that stands ready for a connection too many is the one that would be written.
pub fn too_many_is_told()
    ensures { TOO_MANY.now ≡ reply_text 503 Plain (codes "49 TooManyConnections" ++ 10 ∷ []) true }
{}

/// Where the disk tells its contents, the log behind a later history of a run is the one before it, and perhaps entries behind that.
pub fn turns_grow()
    ensures { (h k : History) → Run true h.first h.begin h.found.disk_faults h.items h.steps h.point
        → Run true k.first k.begin k.found.disk_faults k.items k.steps k.point → Since h k
        → (more : List Entry) × (k.point.machine.log ≡ h.point.machine.log ++ more) }
{}

/// The log of a run at a moment begins with the log found at the start, and with that of each earlier moment.
pub fn runs_only_grow()
    ensures first { (first : Machine) (begin faults : ℕ) (items : List Item) (steps : List Stepped) (point : Point)
        → Run true first begin faults items steps point → (t : ℕ) → (more : List Entry) × ((machine_at first steps t).log ≡ first.log ++ more) }
    ensures later { (first : Machine) (begin faults : ℕ) (items : List Item) (steps : List Stepped) (point : Point)
        → Run true first begin faults items steps point → (t u : ℕ) → t ≤ u
        → (more : List Entry) × ((machine_at first steps u).log ≡ (machine_at first steps t).log ++ more) }
{}

/// While the disk counts no fault, requests are met. Between a moment of a run and a later one with the same count of faults each step that asks
/// for a fragment kept at the earlier moment gives it, with status 200 and its bytes; and where nothing was in doubt then, each step of a
/// header or a fragment that is new takes it in, or a limit is met and 507 says so. Or there is no memory, and 500 says so.
pub fn without_a_fault_requests_are_met()
    ensures given { (h k : History) → Run true h.first h.begin h.found.disk_faults h.items h.steps h.point
        → Run true k.first k.begin k.found.disk_faults k.items k.steps k.point → (since : Since h k) → IsFaultless h.point k.point
        → (x : Stepped) → IsOneOf x since.on.further → (a : Address) (place : ℕ) (f : Fragment) → x.act ≡ Ask a
        → kept_at h.point.machine.log a ≡ Some (place, f) → IsGiven x a place f }
    ensures taken { (h k : History) → Run true h.first h.begin h.found.disk_faults h.items h.steps h.point
        → Run true k.first k.begin k.found.disk_faults k.items k.steps k.point → (since : Since h k) → IsFaultless h.point k.point
        → h.point.machine.doubt ≡ None → (x : Stepped) → IsOneOf x since.on.further → (e : Entry) (counted : Counted) → entry_of x.act ≡ Some e
        → judged x.before.log e ≡ Fresh counted → IsTaken x e counted }
{
    sound_logs_grow();
    what_is_kept_stays();
}

/// What went out on a connection that was opened once is a front of what was told on it, joined: what is to be sent of the replies to its steps, in
/// their order, and between them the texts that stand ready. It is all of it where the loop awaits an event, and no send failed or the
/// connection is still open.
pub fn what_went_out_was_told()
    ensures { (told : Bool) (first : Machine) (begin faults : ℕ) (items : List Item) (steps : List Stepped) (point : Point)
        → Run told first begin faults items steps point → (n : ℕ) → openings n items ≤ 1 → IsFrontOfTexts n items steps point }
{}
