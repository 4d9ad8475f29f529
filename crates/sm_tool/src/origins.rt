//! The commands at an origin.
ghost use Rattle.std.specs.Prelude.{◌≡◌, ◌++◌, IfOk, IfErr};
ghost use Rattle.sm_client.specs.Pushing.{HasPushed, WhyUnpushed, line_of};
ghost use Rattle.sm_tool.specs.Origins.{IsAnswered, PushMeans, TellsPush, TellsUnpushed, place_of, status_line, unreadable_line};
ghost use Rattle.sm_ends.specs.Ended.{end_of};

use crate::answer::Answer;
use sm_client::{VisitFault, push_input};
use sm_ends::Source;
use sm_fetch::{Dial, Place, Pushed};
use sm_model::{Bytes, NoMemory};
use sm_words::PushOrder;
use std::alloc::Global;

// The body of a reply, and behind it the status.
fn status_line(alloc: Global, body: &Bytes, status: u16) -> Result<Bytes, NoMemory>
    ensures { IfOk result (λ line. line ≡ body.now ++ status_line status) }
{
    let told = format!(in alloc;
        "error: status {status}\nThe origin refused the push, or a part of it; its own answer stands before.\n"
    )?;
    let mut line = Vec::new(alloc);
    line.extend_from_slice(body.as_slice())?;
    line.extend_from_slice(told.as_bytes())?;
    Ok(Bytes::from_vec(line))
}

fn unreadable_line(alloc: Global, at: u64) -> Result<Bytes, NoMemory>
    ensures { IfOk result (λ line. line ≡ unreadable_line at) }
{
    let line = format!(in alloc;
        "error: Unreadable-{at}\nThe reply of the origin cannot be read from this byte on.\n"
    )?;
    Ok(Bytes::from_vec(line.into_bytes()))
}

// What came of a push.
fn pushed(alloc: Global, pushed: Pushed) -> Result<Answer, NoMemory>
    ensures { IfOk result (λ answer. TellsPush pushed answer) }
{
    match pushed {
        Pushed::Status { status: 200, line } => Ok(Answer::Found(line)),
        Pushed::Status { status, line } => {
            Ok(Answer::Undone(status_line(alloc, &line, status)?))
        }
        Pushed::Cut => Ok(Answer::Undone(Bytes::from_slice(
            alloc,
            b"error: Cut\nThe origin closed the connection before its reply was whole.\n",
        )?)),
        Pushed::Unreadable { at } => Ok(Answer::Undone(unreadable_line(alloc, at)?)),
        Pushed::Lost => Ok(Answer::LinkFault),
        Pushed::NoMemory => Ok(Answer::Starved),
    }
}

// Why nothing was pushed.
fn unpushed(fault: VisitFault) -> Answer
    ensures { TellsUnpushed fault result }
{
    match fault {
        VisitFault::LinkFault => Answer::LinkFault,
        VisitFault::Unread => Answer::Unread,
        VisitFault::TooLong => Answer::TooLong,
        VisitFault::NoMemory => Answer::Starved,
    }
}

fn place_of(alloc: Global, order: &PushOrder) -> Result<Place, NoMemory>
    ensures { IfOk result (λ place. place ≡ place_of order.now) }
{
    Ok(Place {
        host: Bytes::from_slice(alloc, order.host.as_bytes())?,
        port: order.port,
        path: Bytes::from_slice(alloc, order.path.as_bytes())?,
    })
}

// Pushes the input where the order says.
fn push_to<I: Source, C: Dial>(
    alloc: Global,
    input: &mut I,
    dial: &mut C,
    order: &PushOrder,
) -> Result<Pushed, VisitFault>
    ensures pushed { IfOk result (λ pushed. HasPushed (place_of order.now).host (place_of order.now) order.now.id
        (end_of I.left I.faults input.old) (end_of I.left I.faults input.new) (line_of C.log C.dial_faults C.chosen dial.old)
        (line_of C.log C.dial_faults C.chosen dial.new) pushed) }
    ensures why { IfErr result (λ why. WhyUnpushed (end_of I.left I.faults input.old) (end_of I.left I.faults input.new)
        (line_of C.log C.dial_faults C.chosen dial.old) (line_of C.log C.dial_faults C.chosen dial.new) why) }
    ensures answered { IsAnswered (line_of C.log C.dial_faults C.chosen dial.old)
        (line_of C.log C.dial_faults C.chosen dial.new) (C.store dial.old) (C.store dial.new) }
    ensures goes_on { C.later dial.old dial.new }
{
    let Ok(place) = place_of(alloc, order) else {
        return Err(VisitFault::NoMemory);
    };
    push_input(alloc, input, dial, order.host.as_str(), &place, &order.id)
}

/// Pushes the input whole where the order says, once, and says what came of it.
pub fn push<I: Source, C: Dial>(
    alloc: Global,
    input: &mut I,
    dial: &mut C,
    order: &PushOrder,
) -> Answer
    ensures means { PushMeans (place_of order.now) order.now.id (end_of I.left I.faults input.old) (end_of I.left I.faults input.new)
        (line_of C.log C.dial_faults C.chosen dial.old)
        (line_of C.log C.dial_faults C.chosen dial.new) (C.store dial.old) (C.store dial.new) result }
    ensures goes_on { C.later dial.old dial.new }
{
    match push_to(alloc, input, dial, order) {
        Ok(came) => match pushed(alloc, came) {
            Ok(answer) => answer,
            Err(NoMemory) => Answer::Starved,
        },
        Err(fault) => unpushed(fault),
    }
}
