//! The commands.
ghost use Rattle.std.specs.Prelude.{◌≡◌, ◌⊎◌, ℕ, List, length, map, string_bytes};
ghost use Rattle.sm_command.specs.Lasting.{KeepsStores};
ghost use Rattle.sm_usage.specs.Wrong.{wrong_words};
ghost use Rattle.sm_tool.specs.declared.answer.Answer.TheVariants as answers;
ghost use Rattle.sm_tool.specs.Ran.{IsRun, Means, PickMeans, Prints, around};
ghost use Rattle.sm_ends.specs.Ended.{end_of};
ghost use Rattle.sm_client.specs.Pushing.{line_of};
ghost use Rattle.sm_client.specs.Turns.{meant};
ghost use Rattle.sm_tool.specs.Edges.{dialing};
ghost use Rattle.sm_tool.specs.Plays.{tape_of};

use crate::answer::Answer;
use crate::edges::{relay, standby};
use crate::exports::export;
use crate::origins::push;
use crate::play::play;
use crate::printing::print;
use crate::rehearse::rehearse;
use crate::stores::{list, serve};
use sm_ends::{InputFault, Sink, Source, Tracks};
use sm_fetch::Dial;
use sm_model::{Bytes, NoMemory};
use sm_pick::{Picked, pick};
use sm_policy::Policy;
use sm_site::Site;
use sm_usage::wrong_words;
use sm_words::{Order, help_text, order_of, version_text};
use std::alloc::Global;

// What the input comes to, where a fragment of it is asked for.
fn picked<I: Source>(alloc: Global, input: &mut I, track: u32, time: u64) -> Answer
    ensures { PickMeans track time (end_of I.left I.faults input.old) (end_of I.left I.faults input.new) result }
{
    match pick(alloc, input, track, time) {
        Ok(Picked::Found(text)) => Answer::Found(text),
        Ok(Picked::Refused(line)) => Answer::Refused(line),
        Ok(Picked::NotKept) => Answer::NotKept,
        Err(InputFault::Failed) => Answer::Unread,
        Err(InputFault::TooLong) => Answer::TooLong,
        Err(InputFault::NoMemory) => Answer::Starved,
    }
}

// A text that was asked for.
fn told(alloc: Global, text: &str) -> Answer
    ensures { (result ≡ answers.Found text.now) ⊎ (result ≡ answers.Starved) }
{
    match Bytes::from_slice(alloc, text.as_bytes()) {
        Ok(text) => Answer::Found(text),
        Err(NoMemory) => Answer::Starved,
    }
}

// What is wrong in words that name no command.
fn wrong(alloc: Global, words: &[String]) -> Answer
    ensures { (result ≡ answers.Words (wrong_words (map string_bytes words.now))) ⊎ (result ≡ answers.Starved) }
{
    match wrong_words(alloc, words) {
        Ok(text) => Answer::Words(text),
        Err(NoMemory) => Answer::Starved,
    }
}

// What the words, the input, the site, the dial and the tracks come to. An export goes to the output.
fn answer_to<I: Source, O: Sink, S: Site, C: Dial, T: Tracks>(
    alloc: Global,
    words: &[String],
    input: &mut I,
    output: &mut O,
    site: &mut S,
    dial: &mut C,
    tracks: &mut T,
    policies: Vec<Box<dyn Policy>>,
) -> Answer
    requires policies { length policies.items ≡ 3 }
    ensures means { Means S.Disk.seen (dialing C.log C.store C.later C.dial_faults C.chosen)
        (meant pick_after retired_after) policies.items (map string_bytes words.now)
        (around (end_of I.left I.faults input.old) (line_of C.log C.dial_faults C.chosen dial.old) (tape_of T.held T.faults tracks.old))
        (around (end_of I.left I.faults input.new) (line_of C.log C.dial_faults C.chosen dial.new) (tape_of T.held T.faults tracks.new))
        (end_of O.held O.faults output.old) (end_of O.held O.faults output.new) site.old site.new dial.old dial.new result }
    ensures stores { KeepsStores S.Disk.seen site.old site.new ((line : List ℕ) × (result ≡ answers.NotAStore line)) }
    ensures goes_on { C.later dial.old dial.new }
{
    match order_of(alloc, words) {
        Ok(Some(Order::Pick { track, time })) => picked(alloc, input, track, time),
        Ok(Some(Order::Serve(order))) => serve(alloc, input, site, order),
        Ok(Some(Order::ServeShown { .. })) => wrong(alloc, words),
        Ok(Some(Order::Push(order))) => push(alloc, input, dial, &order),
        Ok(Some(Order::Play(order))) => play(alloc, dial, tracks, policies, &order),
        Ok(Some(Order::Relay(order))) => relay(alloc, input, site, dial, order),
        Ok(Some(Order::Standby(order))) => standby(alloc, input, site, dial, order),
        Ok(Some(Order::List { store })) => list(alloc, site, store),
        Ok(Some(Order::Rehearse { number, size })) => rehearse(alloc, number, size, policies),
        Ok(Some(Order::Export(order))) => export(alloc, input, output, site, order),
        Ok(Some(Order::Help(topic))) => told(alloc, help_text(topic)),
        Ok(Some(Order::Version)) => told(alloc, version_text()),
        Ok(None) => wrong(alloc, words),
        Err(NoMemory) => Answer::Starved,
    }
}

/// Carries out the command that the words name, and gives the exit status.
///
/// `pick TRACK TIME` reads the body of a push from `input`, with a header or without, and writes the canonical text of the first
/// fragment with that track_ID and time, in ticks of its track's timescale, numbered by its place among all of them.
/// `serve STORE --port N [--ladder] [--turns N] [--bind ADDRESS] [--journal FILE]` serves the store in that folder at that port, of all
/// addresses or of that one, until nothing more comes or so many events were taken; with `--ladder` the input is a ladder, which is
/// declared first; what happens is told in that file. With `--players` it is refused as words, since this call starts no threads.
/// `push HOST PORT PATH ID` sends the input,
/// whole and once, to the channel with that path at that origin, as a stream of that name, and writes the body of the reply.
/// `list STORE` lists the fragments of the store in that folder.
/// `play HOST PORT PATH STREAM... [--from N] [--count N] [--tries N] [--refresh N]` plays streams of the channel with that path at that
/// origin, one after another, the first to track 0, and writes how many fragments it wrote, or why it ended before there were as many
/// as were wanted. The policies act in turn.
/// `relay HOST PORT PATH STORE [--rounds N] [--tries N] [--journal FILE]` reads a ladder from `input`, declares it in the store in that folder, pulls into that
/// what the origin lists of the ladder's tracks, and writes how many fragments it kept, or why it ended before there were as many rounds as
/// were wanted. `standby` with the same words rebuilds there the log of that origin, fragment by fragment in its order.
/// `rehearse NUMBER SIZE` runs the world of that number in memory, with so many rounds of pushes and three clients, each with one of
/// the policies, and writes what came of it in numbers; it uses none of the ends.
/// `export STORE NAME BITRATE` reads a pushed header from `input`, alone or with what was pushed behind it, and writes that header and then
/// each fragment that the store in that folder keeps of the stream of that name at that bitrate, in the order of time.
/// `help`, `help COMMAND` and `--help` tell how the commands are used, `version` and `--version` which version this is; words that name no
/// command are answered by what is wrong in them, and by the use of the one that they begin with. Every line, also that of a
/// failure, goes to `output`; none follows where a file was begun and isn't whole.
pub fn tool<I: Source, O: Sink, S: Site, C: Dial, T: Tracks>(
    alloc: Global,
    words: &[String],
    input: &mut I,
    output: &mut O,
    site: &mut S,
    dial: &mut C,
    tracks: &mut T,
    policies: Vec<Box<dyn Policy>>,
) -> u8
    requires policies { length policies.items ≡ 3 }
    ensures run { IsRun S.Disk.seen (dialing C.log C.store C.later C.dial_faults C.chosen)
        (meant pick_after retired_after) policies.items (map string_bytes words.now)
        (around (end_of I.left I.faults input.old) (line_of C.log C.dial_faults C.chosen dial.old) (tape_of T.held T.faults tracks.old))
        (around (end_of I.left I.faults input.new) (line_of C.log C.dial_faults C.chosen dial.new) (tape_of T.held T.faults tracks.new))
        (end_of O.held O.faults output.old) (end_of O.held O.faults output.new) site.old site.new dial.old dial.new result }
    // What the dial promises of whatever is done with it holds of the call.
    ensures goes_on { C.later dial.old dial.new }
{
    let answer = answer_to(alloc, words, input, output, site, dial, tracks, policies);
    print(output, &answer)
}

/// Writes the line of a want of memory before any command was begun, and gives the exit status.
pub fn starved<O: Sink>(output: &mut O) -> u8
    ensures { Prints answers.Starved (end_of O.held O.faults output.old) (end_of O.held O.faults output.new) result }
{
    print(output, &Answer::Starved)
}
