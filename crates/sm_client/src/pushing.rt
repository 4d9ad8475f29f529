//! Pushing an input.
ghost use Rattle.std.specs.Prelude.{IfOk, IfErr};
ghost use Rattle.sm_fetch.specs.Origins.{Answered, DialGoesOn};
ghost use Rattle.sm_client.specs.Pushing.{HasPushed, WhyUnpushed, line_of};
ghost use Rattle.sm_ends.specs.Ended.{end_of};

use crate::VisitFault;
use sm_ends::{INPUT_MOST, Source, read_input};
use sm_fetch::{Dial, Place, Pushed, push_body};
use sm_model::Name;
use std::alloc::Global;

/// Turns to the host and port of a place, reads the input to its end, at most 268,435,456 bytes, and pushes it whole to the channel
/// there, as a stream of that name. A fault says that nothing was sent.
pub fn push_input<I: Source, C: Dial>(
    alloc: Global,
    input: &mut I,
    dial: &mut C,
    host: &str,
    place: &Place,
    id: &Name,
) -> Result<Pushed, VisitFault>
    ensures pushed { IfOk result (λ pushed. HasPushed host.now place.now id.now
        (end_of I.left I.faults input.old) (end_of I.left I.faults input.new)
        (line_of C.log C.dial_faults C.chosen dial.old)
        (line_of C.log C.dial_faults C.chosen dial.new) pushed) }
    ensures why { IfErr result (λ why. WhyUnpushed
        (end_of I.left I.faults input.old) (end_of I.left I.faults input.new)
        (line_of C.log C.dial_faults C.chosen dial.old)
        (line_of C.log C.dial_faults C.chosen dial.new) why) }
    ensures dial { DialGoesOn C.store C.later C.dial_faults dial.old dial.new }
    ensures answered { Answered (C.log dial.old) (C.log dial.new) (C.store dial.old) (C.store dial.new) }
{
    dial.select(host, place.port)?;
    let body = read_input(alloc, input, INPUT_MOST)?;
    Ok(push_body(alloc, dial, place, id, body.as_slice()))
}
