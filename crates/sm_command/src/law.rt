//! Laws of what a site tells of a run. Each is the contract of a function that only calls other laws.
ghost use Rattle.std.specs.Prelude.{ℕ, List, true, IsSome};
ghost use Rattle.sm_site.specs.Meanings.{Item};
ghost use Rattle.sm_origin.specs.declared.origin.Origin.{Origin};
ghost use Rattle.sm_origin.specs.Machine.{Machine};
ghost use Rattle.sm_origin.specs.Shown.{IsReal, Claim, Holds};
ghost use Rattle.sm_serve.specs.Moments.{machine_at};
ghost use Rattle.sm_serve.specs.Run.{Stepped, Point, Run};
ghost use Rattle.sm_serve.specs.Shown.{Shown};
ghost use Rattle.sm_serve.specs.Standing.{StandsOn};

use sm_origin::law::an_image_fits;
use sm_origin::shown::logs_of_stores_are_real;
use sm_serve::shown::what_was_shown_is_held;
use sm_site::Site;

/// Where an origin stands at the end of a run, on a disk that tells its contents, the log of each moment of the run is one of real
/// entries.
pub fn logs_of_runs_are_real<S: Site>()
    ensures { (first : Machine) (begin faults : ℕ) (items : List Item) (steps : List Stepped) (point : Point) → Run true first begin faults items steps point
        → (o : Origin) (site : S) → StandsOn S.Disk.seen point.machine o site → IsSome (S.Disk.seen.view site).contents
        → (t : ℕ) → IsReal (machine_at first steps t).log }
{
    an_image_fits::<S>();
    logs_of_stores_are_real();
}

/// So what such a run has shown by a moment is held by the log of the last of its steps that had ended by then.
pub fn what_a_site_has_shown_is_held<S: Site>()
    ensures { (first : Machine) (begin faults : ℕ) (items : List Item) (steps : List Stepped) (point : Point) → Run true first begin faults items steps point
        → (o : Origin) (site : S) → StandsOn S.Disk.seen point.machine o site → IsSome (S.Disk.seen.view site).contents
        → (t : ℕ) (claim : Claim) → Shown items t claim → Holds (machine_at first steps t).log claim }
{
    logs_of_runs_are_real::<S>();
    what_was_shown_is_held();
}
