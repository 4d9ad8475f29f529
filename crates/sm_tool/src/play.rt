//! Playing streams of an origin.
ghost use Rattle.std.specs.Prelude.{◌≡◌, ◌<◌, length, IfOk, IfErr};
ghost use Rattle.sm_words.specs.Orders.{IsPlayable};
ghost use Rattle.sm_tool.specs.Plays.{HasPlayed, PlayMeans, TellsPlay, WhyUnplayed, hole_line, tape_of};
ghost use Rattle.sm_tool.specs.Plays.{name_at, no_more_line, no_stream_line, played_line};
ghost use Rattle.sm_client.specs.Pushing.{line_of};
ghost use Rattle.sm_client.specs.Turns.{meant};

use crate::answer::Answer;
use crate::misses::{gave_up_line, no_manifest_line};
use sm_client::{End, Names, Plan, Report};
use sm_ends::Tracks;
use sm_fetch::{Dial, DialError};
use sm_model::{Bytes, NoMemory};
use sm_policy::Policy;
use sm_words::PlayOrder;
use std::alloc::Global;

fn played_line(alloc: Global, played: u64) -> Result<Bytes, NoMemory>
    ensures { IfOk result (λ line. line ≡ played_line played) }
{
    let line = format!(in alloc; "played {played}\n")?;
    Ok(Bytes::from_vec(line.into_bytes()))
}

fn no_more_line(alloc: Global, expected: u64) -> Result<Bytes, NoMemory>
    ensures { IfOk result (λ line. line ≡ no_more_line expected) }
{
    let line = format!(in alloc;
        "error: NoMore {expected}\nThe origin lists no fragment that starts at this time.\n"
    )?;
    Ok(Bytes::from_vec(line.into_bytes()))
}

fn hole_line(alloc: Global, expected: u64, next: u64) -> Result<Bytes, NoMemory>
    ensures { IfOk result (λ line. line ≡ hole_line expected next) }
{
    let line = format!(in alloc;
        "error: Hole {expected} {next}\nThe origin lists no fragment at the first of these times, and one at the second.\n"
    )?;
    Ok(Bytes::from_vec(line.into_bytes()))
}

// The name of that place among the streams.
fn name_at(streams: &Names, index: u32) -> &[u8]
    ensures { result.now ≡ name_at streams.now index }
{
    match streams.as_slice().get(index as usize) {
        Some(name) => name.as_bytes(),
        None => b"",
    }
}

fn no_stream_line(alloc: Global, streams: &Names, index: u32) -> Result<Bytes, NoMemory>
    ensures { IfOk result (λ line. line ≡ no_stream_line (name_at streams.now index)) }
{
    let mut line = Vec::from_slice(alloc, b"error: NoStream ")?;
    line.extend_from_slice(name_at(streams, index))?;
    line.extend_from_slice(b"\nThe origin lists no stream of this name.\n")?;
    Ok(Bytes::from_vec(line))
}

// How the play ended.
fn told(alloc: Global, streams: &Names, report: &Report) -> Result<Answer, NoMemory>
    ensures { IfOk result (TellsPlay streams.now report.now) }
{
    match &report.end {
        End::Done => Ok(Answer::Found(played_line(alloc, report.played)?)),
        End::NoMore { expected } => Ok(Answer::Undone(no_more_line(alloc, *expected)?)),
        End::Hole { expected, next } => Ok(Answer::Undone(hole_line(alloc, *expected, *next)?)),
        End::GaveUp { time, outcomes } => {
            Ok(Answer::Undone(gave_up_line(alloc, *time, outcomes)?))
        }
        End::NoManifest { outcomes } => Ok(Answer::Undone(no_manifest_line(alloc, outcomes)?)),
        End::NoStream { index } => Ok(Answer::Undone(no_stream_line(alloc, streams, *index)?)),
        End::WriteFault => Ok(Answer::TrackFault),
        End::NoMemory => Ok(Answer::Starved),
    }
}

// Plays what the order names, at its place.
fn play_at<C: Dial, T: Tracks>(
    alloc: Global,
    dial: &mut C,
    tracks: &mut T,
    policies: Vec<Box<dyn Policy>>,
    order: &PlayOrder,
) -> Result<Report, DialError>
    requires policies { 0 < length policies.items }
    requires playable { IsPlayable order.now.plan }
    ensures played { IfOk result (λ report. HasPlayed (meant pick_after retired_after) order.now.plan policies.items
        (line_of C.log C.dial_faults C.chosen dial.old) (line_of C.log C.dial_faults C.chosen dial.new) (C.store dial.old) (C.store dial.new)
        (tape_of T.held T.faults tracks.old) (tape_of T.held T.faults tracks.new) report) }
    ensures why { IfErr result (λ why. WhyUnplayed (line_of C.log C.dial_faults C.chosen dial.old)
        (line_of C.log C.dial_faults C.chosen dial.new) (C.store dial.old) (C.store dial.new)
        (tape_of T.held T.faults tracks.old) (tape_of T.held T.faults tracks.new) why) }
    ensures goes_on { C.later dial.old dial.new }
{
    dial.select(order.host.as_str(), order.plan.place.port)?;
    Ok(sm_client::play(alloc, dial, tracks, policies, &order.plan))
}

/// Turns to the host and port of the order, plays its streams there, one after another into the tracks, and says how that ended.
pub fn play<C: Dial, T: Tracks>(
    alloc: Global,
    dial: &mut C,
    tracks: &mut T,
    policies: Vec<Box<dyn Policy>>,
    order: &PlayOrder,
) -> Answer
    requires policies { 0 < length policies.items }
    requires playable { IsPlayable order.now.plan }
    ensures means { PlayMeans (meant pick_after retired_after) order.now.plan policies.items (line_of C.log C.dial_faults C.chosen dial.old)
        (line_of C.log C.dial_faults C.chosen dial.new) (C.store dial.old) (C.store dial.new)
        (tape_of T.held T.faults tracks.old) (tape_of T.held T.faults tracks.new) result }
    ensures goes_on { C.later dial.old dial.new }
{
    match play_at(alloc, dial, tracks, policies, order) {
        Ok(report) => match told(alloc, &order.plan.streams, &report) {
            Ok(answer) => answer,
            Err(NoMemory) => Answer::Starved,
        },
        Err(DialError::Failed) => Answer::LinkFault,
        Err(DialError::NoMemory) => Answer::Starved,
    }
}
