//! The top call.
ghost use Rattle.std.specs.Prelude.{◌≡◌, ◌≤◌, ◌<◌, ◌⊎◌, ℕ, List, Option, IfOk, IfSome, length, map, string_bytes};
ghost use Rattle.std.specs.Option.{option_map};
ghost use Rattle.sm_site.specs.Texts.{text_of};
ghost use Rattle.sm_command.specs.Lasting.{KeepsStores};
ghost use Rattle.sm_tool.specs.declared.answer.Answer.TheVariants as answers;
ghost use Rattle.sm_words.specs.Orders.{IsShowable, serving_of, wanted_of};
ghost use Rattle.sm_words.specs.Words.{asked};
ghost use Rattle.sm_run.specs.Runs.{Runs, ShowAnswers, shown_by};
ghost use Rattle.sm_ends.specs.Ended.{end_of};
ghost use Rattle.sm_client.specs.Pushing.{line_of};
ghost use Rattle.sm_client.specs.Turns.{meant};
ghost use Rattle.sm_tool.specs.Edges.{dialing};
ghost use Rattle.sm_tool.specs.Ran.{around};
ghost use Rattle.sm_tool.specs.Plays.{tape_of};
ghost use Rattle.sm_run.specs.Staff.{staff_of};

use crate::stores::show_store;
use crate::telling::{ended, unshown};
use sm_ends::{Sink, Source, Tracks};
use sm_fetch::Dial;
use sm_model::NoMemory;
use sm_players::{Spawner, Wiring};
use sm_policy::Policy;
use sm_site::{Selection, Site};
use sm_tool::{Answer, print, starved, tool};
use sm_words::{Order, ServeOrder, order_of};
use std::alloc::Global;
use std::sync::Wait;

// What is served, and by how many players, where an order asks for some.
fn shown_by(order: Option<Order>) -> Option<(ServeOrder, u32)>
    ensures { option_map (λ x. (serving_of x.0, x.1)) result ≡ shown_by (option_map wanted_of order) }
{
    match order {
        Some(Order::ServeShown { order, players }) => Some((order, players)),
        Some(
            Order::Pick { .. }
            | Order::Serve(_)
            | Order::Push(_)
            | Order::Play(_)
            | Order::Relay(_)
            | Order::Standby(_)
            | Order::List { .. }
            | Order::Rehearse { .. }
            | Order::Export(_)
            | Order::Help(_)
            | Order::Version,
        )
        | None => None,
    }
}

// The same, of words.
fn shown_in(alloc: Global, words: &[String]) -> Result<Option<(ServeOrder, u32)>, NoMemory>
    ensures is { IfOk result (λ o. option_map (λ x. (serving_of x.0, x.1)) o ≡ shown_by (asked (map string_bytes words.now))) }
    ensures fits { IfOk result (λ o. IfSome o (λ x. IsShowable (serving_of x.0) x.1)) }
{
    Ok(shown_by(order_of(alloc, words)?))
}

// A copy of a text, where there is one.
fn copied(alloc: Global, text: &Option<String>) -> Result<Option<String>, NoMemory>
    ensures { IfOk result (λ copy. text_of copy ≡ text_of text.now) }
{
    match text {
        Some(text) => Ok(Some(String::from_str(alloc, text.as_str())?)),
        None => Ok(None),
    }
}

// Serves the store that the order names beside so many players, and says how that ended.
fn show<R: Wait, I: Source, S: Site, P: Spawner>(
    rt: &R,
    alloc: Global,
    input: &mut I,
    site: &mut S,
    spawner: &mut P,
    order: ServeOrder,
    players: u32,
) -> Answer
    requires fits { IsShowable (serving_of order) players }
    ensures means { ShowAnswers S.Disk.seen (serving_of order) players
        (end_of I.left I.faults input.old) (end_of I.left I.faults input.new) site.old site.new
        (staff_of P.spawn_faults P.started P.limit P.chosen P.ended spawner.old)
        (staff_of P.spawn_faults P.started P.limit P.chosen P.ended spawner.new) result }
    ensures counted { I.faults input.old ≤ I.faults input.new }
    ensures stores { KeepsStores S.Disk.seen site.old site.new ((line : List ℕ) × (result ≡ answers.NotAStore line)) }
{
    let Ok(bind) = copied(alloc, &order.bind) else {
        return Answer::Starved;
    };
    let wiring = Wiring {
        port: order.port,
        players,
        bind,
    };
    let selection = Selection {
        store: order.store,
        make: true,
        port: order.port,
        bind: order.bind,
        journal: order.journal,
    };
    match show_store(
        rt,
        alloc,
        input,
        site,
        spawner,
        selection,
        order.ladder,
        wiring,
        order.turns,
    ) {
        Ok(end) => ended(alloc, end),
        Err(fault) => unshown(alloc, fault),
    }
}

/// Carries out the command that the words name, and gives the exit status.
///
/// `serve STORE --port N --players K`, with the options that `serve` has beside, serves the store in that folder, and starts K players before the first
/// event: threads that answer viewers from what the loop has published. `spawner` is told where their wires are wanted. Behind the last event they
/// are asked to end and joined, and how many events were taken is written, and behind how many of them less was published than is kept. A player
/// whose wire failed ends this as a fault of the link does, and one that wanted memory as want of memory does. Every other command is the tool's;
/// it asks nothing of the spawner.
///
/// It waits for readers that are inside the shelf and for players to end.
pub fn run<R: Wait, I: Source, O: Sink, S: Site, C: Dial, T: Tracks, P: Spawner>(
    rt: &R,
    alloc: Global,
    words: &[String],
    input: &mut I,
    output: &mut O,
    site: &mut S,
    dial: &mut C,
    tracks: &mut T,
    spawner: &mut P,
    policies: Vec<Box<dyn Policy>>,
) -> u8
    requires policies { length policies.items ≡ 3 }
    ensures run { Runs S.Disk.seen (dialing C.log C.store C.later C.dial_faults C.chosen)
        (meant pick_after retired_after) policies.items (map string_bytes words.now)
        (around (end_of I.left I.faults input.old) (line_of C.log C.dial_faults C.chosen dial.old) (tape_of T.held T.faults tracks.old))
        (around (end_of I.left I.faults input.new) (line_of C.log C.dial_faults C.chosen dial.new) (tape_of T.held T.faults tracks.new))
        (end_of O.held O.faults output.old) (end_of O.held O.faults output.new) site.old site.new dial.old dial.new
        (staff_of P.spawn_faults P.started P.limit P.chosen P.ended spawner.old)
        (staff_of P.spawn_faults P.started P.limit P.chosen P.ended spawner.new) result }
    // What the dial promises of whatever is done with it holds of the call.
    ensures goes_on { C.later dial.old dial.new }
{
    match shown_in(alloc, words) {
        Ok(Some((order, players))) => {
            let answer = show(rt, alloc, input, site, spawner, order, players);
            print(output, &answer)
        }
        Ok(None) => tool(alloc, words, input, output, site, dial, tracks, policies),
        Err(NoMemory) => starved(output),
    }
}
