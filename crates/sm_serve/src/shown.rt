//! Laws of what runs show. Each is the contract of a function that only calls other laws.
ghost use Rattle.std.specs.Prelude.{◌≡◌, ◌++◌, ℕ, List, true};
ghost use Rattle.sm_model.specs.declared.entry.Entry.{Entry};
ghost use Rattle.sm_site.specs.Image.{Image};
ghost use Rattle.sm_site.specs.Meanings.{Item};
ghost use Rattle.sm_archive.specs.Store.{IsStore};
ghost use Rattle.sm_origin.specs.Machine.{Machine};
ghost use Rattle.sm_origin.specs.Shown.{IsReal, Claim, Holds};
ghost use Rattle.sm_serve.specs.Run.{Stepped, Point, Run};
ghost use Rattle.sm_serve.specs.Moments.{machine_at, FitsAt};
ghost use Rattle.sm_serve.specs.Shown.{Shown};

use crate::law::too_many_is_told;
use sm_head::law::{part_shows_its_status, ready_texts_show_their_status};
use sm_origin::shown::{
    a_silent_fragment_is_kept, logs_of_stores_are_real, replies_tell_by_their_status,
    what_is_held_stays, what_is_shown_is_held,
};
use sm_wire::law::wire_of_front;

/// What a run has shown by a moment is held by the log of the last of its steps that had ended by then, where that is a log of real
/// entries. The disk tells its contents.
pub fn what_was_shown_is_held()
    ensures { (first : Machine) (begin faults : ℕ) (items : List Item) (steps : List Stepped) (point : Point)
        → Run true first begin faults items steps point → (t : ℕ) (claim : Claim) → Shown items t claim
        → IsReal (machine_at first steps t).log → Holds (machine_at first steps t).log claim }
{
    too_many_is_told();
    part_shows_its_status();
    ready_texts_show_their_status();
    replies_tell_by_their_status();
    a_silent_fragment_is_kept();
    what_is_shown_is_held();
    what_is_held_stays();
    logs_of_stores_are_real();
    wire_of_front();
}

/// What a run has shown by a moment is held by the store that a crash at that moment leaves, whose log begins with the one found at the
/// start. The disk tells its contents.
pub fn crashes_hold_what_was_shown()
    ensures { (first : Machine) (begin faults : ℕ) (items : List Item) (steps : List Stepped) (point : Point)
        → Run true first begin faults items steps point → (t : ℕ) (image : Image) → FitsAt first steps t image
        → (log : List Entry) × IsStore log image × ((more : List Entry) × (log ≡ first.log ++ more))
        × ((claim : Claim) → Shown items t claim → Holds log claim) }
{
    logs_of_stores_are_real();
    what_is_held_stays();
    what_was_shown_is_held();
}
