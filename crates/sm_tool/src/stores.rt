//! The commands on a store.
ghost use Rattle.std.specs.Prelude.{◌≡◌, ◌≤◌, ℕ, List, IfOk, string_bytes};
ghost use Rattle.sm_command.specs.Lasting.{IsSilent, KeepsStores, LeavesLog};
ghost use Rattle.sm_tool.specs.declared.answer.Answer.TheVariants as answers;
ghost use Rattle.sm_words.specs.Orders.{serving_of};
ghost use Rattle.sm_tool.specs.Stores.{IsSelected, ListMeans, ServeMeans, Tells, at_folder, chosen_of, TellsEnd, clash_line, ladder_line, or_starved, store_line, turns_line};
ghost use Rattle.sm_ends.specs.Ended.{end_of};

use crate::answer::Answer;
use sm_command::{StoreFault, list_store, serve_store};
use sm_ends::Source;
use sm_model::{Bytes, Cause, NoMemory, Refusal, put_cause};
use sm_pick::sentence;
use sm_serve::Served;
use sm_site::{Selection, Site};
use sm_words::ServeOrder;
use std::alloc::Global;

fn turns_line(alloc: Global, turns: u64) -> Result<Bytes, NoMemory>
    ensures { IfOk result (λ line. line ≡ turns_line turns) }
{
    let line = format!(in alloc; "turns {turns}\n")?;
    Ok(Bytes::from_vec(line.into_bytes()))
}

fn store_line(alloc: Global, at: u64) -> Result<Bytes, NoMemory>
    ensures { IfOk result (λ line. line ≡ store_line at) }
{
    let line = format!(in alloc;
        "error: not a store at {at}\nThe files of the folder are no store from this byte of the first one on, and were left as they are.\n"
    )?;
    Ok(Bytes::from_vec(line.into_bytes()))
}

fn ladder_line(alloc: Global, at: u64) -> Result<Bytes, NoMemory>
    ensures { IfOk result (λ line. line ≡ ladder_line at) }
{
    let line = format!(in alloc;
        "error: input at {at}: 5 BadLiveManifest\nThe ladder is no live manifest, or lacks what is read of a track.\n"
    )?;
    Ok(Bytes::from_vec(line.into_bytes()))
}

/// The line of a cause, which has no place here, and its sentence behind it.
pub fn clash_line(alloc: Global, cause: Cause) -> Result<Bytes, NoMemory>
    ensures { IfOk result (λ line. line ≡ clash_line cause) }
{
    let refusal = Refusal { at: 0, cause };
    let told = put_cause(alloc, &refusal)?;
    let sentence = sentence(&refusal.cause);
    let mut line = Vec::new(alloc);
    line.extend_from_slice(b"error: ")?;
    line.extend_from_slice(told.as_slice())?;
    line.extend_from_slice(sentence.as_bytes())?;
    line.extend_from_slice(b"\n")?;
    Ok(Bytes::from_vec(line))
}

/// Why a store is not served, not listed and not exported from.
pub fn refused(alloc: Global, fault: StoreFault) -> Result<Answer, NoMemory>
    ensures { IfOk result (λ answer. Tells fault answer) }
{
    match fault {
        StoreFault::DiskFault => Ok(Answer::DiskFault),
        StoreFault::LinkFault => Ok(Answer::LinkFault),
        StoreFault::NotAStore { at } => Ok(Answer::NotAStore(store_line(alloc, at)?)),
        StoreFault::Unread => Ok(Answer::Unread),
        StoreFault::LongLadder => Ok(Answer::LongLadder),
        StoreFault::BadLadder { at } => Ok(Answer::Refused(ladder_line(alloc, at)?)),
        StoreFault::Refused(cause) => Ok(Answer::Clash(clash_line(alloc, cause)?)),
        StoreFault::Full => Ok(Answer::Full),
        StoreFault::Damaged => Ok(Answer::Damaged),
        StoreFault::NoMemory => Ok(Answer::Starved),
    }
}

// How the loop ended.
fn ended(alloc: Global, end: Served) -> Result<Answer, NoMemory>
    ensures { IfOk result (λ answer. TellsEnd end answer) }
{
    match end {
        Served::Done { turns, .. } => Ok(Answer::Found(turns_line(alloc, turns)?)),
        Served::LinkFault => Ok(Answer::LinkFault),
        Served::NoMemory => Ok(Answer::Starved),
    }
}

/// An answer; without memory for its line that alone is told.
pub fn or_starved(answer: Result<Answer, NoMemory>) -> Answer
    ensures { result ≡ or_starved answer }
{
    match answer {
        Ok(answer) => answer,
        Err(NoMemory) => Answer::Starved,
    }
}

/// Serves the store that the order names, and says how that ended.
pub fn serve<I: Source, S: Site>(
    alloc: Global,
    input: &mut I,
    site: &mut S,
    order: ServeOrder,
) -> Answer
    ensures selected { IsSelected result (chosen_of (serving_of order)) (S.Disk.seen.view site.old) (S.Disk.seen.view site.new) }
    ensures means { ServeMeans S.Disk.seen order.ladder order.turns (end_of I.left I.faults input.old)
        (end_of I.left I.faults input.new) site.old site.new result }
    ensures counted { I.faults input.old ≤ I.faults input.new }
    ensures stores { KeepsStores S.Disk.seen site.old site.new ((line : List ℕ) × (result ≡ answers.NotAStore line)) }
{
    let selection = Selection {
        store: order.store,
        make: true,
        port: order.port,
        bind: order.bind,
        journal: order.journal,
    };
    match serve_store(alloc, input, site, selection, order.ladder, order.turns) {
        Ok(end) => or_starved(ended(alloc, end)),
        Err(fault) => or_starved(refused(alloc, fault)),
    }
}

/// Lists the store in that folder.
pub fn list<S: Site>(alloc: Global, site: &mut S, store: String) -> Answer
    ensures selected { IsSelected result (at_folder (string_bytes store)) (S.Disk.seen.view site.old) (S.Disk.seen.view site.new) }
    ensures means { ListMeans S.Disk.seen site.old site.new result }
    ensures log { LeavesLog S.Disk.seen site.old site.new }
    ensures silent { IsSilent (S.Disk.seen.view site.old) (S.Disk.seen.view site.new) }
    ensures stores { KeepsStores S.Disk.seen site.old site.new ((line : List ℕ) × (result ≡ answers.NotAStore line)) }
{
    match list_store(alloc, site, store) {
        Ok(text) => Answer::Found(text),
        Err(fault) => or_starved(refused(alloc, fault)),
    }
}
