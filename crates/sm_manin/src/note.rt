//! The least place.
ghost use Rattle.std.specs.Prelude.{◌≡◌};
ghost use Rattle.sm_model.specs.Places.{least_from};
ghost use Rattle.sm_manin.specs.ManifestFaults.{at_if};

use sm_model::note;

pub fn note_if(fault: &mut Option<u64>, is_fault: bool, at: u64)
    ensures { fault.new ≡ least_from fault.old (at_if is_fault at) }
{
    if is_fault {
        note(fault, at);
    }
}
