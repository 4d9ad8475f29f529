//! Places of faults in a text.
ghost use Rattle.std.specs.Prelude.{◌≡◌, option_to_list};
ghost use Rattle.sm_model.specs.Places.{first_place, sooner, least_from};

/// Keeps the place that was kept, or else this one.
pub fn keep_first(place: &mut Option<u64>, at: u64)
    ensures { place.new ≡ first_place place.old at }
{
    if place.is_none() {
        *place = Some(at);
    }
}

/// Keeps the least place.
pub fn note(fault: &mut Option<u64>, at: u64)
    ensures { fault.new ≡ sooner fault.old at }
{
    *fault = Some(match *fault {
        None => at,
        Some(earlier) => earlier.min(at),
    });
}

/// Keeps the least place, where there is one more.
pub fn note_option(fault: &mut Option<u64>, at: Option<u64>)
    ensures { fault.new ≡ least_from fault.old (option_to_list at) }
{
    if let Some(at) = at {
        note(fault, at);
    }
}
