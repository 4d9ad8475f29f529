//! Exporting from a store.
ghost use Rattle.std.specs.Prelude.{◌≡◌, ◌≤◌, ℕ, List, IfOk, OnErr, string_bytes};
ghost use Rattle.sm_command.specs.Lasting.{IsSilent, KeepsStores, LeavesLog};
ghost use Rattle.sm_export.specs.declared.exported.StoreExport.TheVariants as ends;
ghost use Rattle.sm_tool.specs.declared.answer.Answer.TheVariants as answers;
ghost use Rattle.sm_tool.specs.Exports.{ExportMeans, IsUnwritten, TellsExport};
ghost use Rattle.sm_tool.specs.Stores.{IsSelected, at_folder};
ghost use Rattle.sm_ends.specs.Ended.{end_of};

use crate::answer::{Answer, Stop};
use crate::stores::{clash_line, or_starved, refused};
use sm_ends::{InputFault, Sink, Source};
use sm_export::{Exported, StoreExport, export_store};
use sm_model::{Bytes, NoMemory};
use sm_pick::refusal_line;
use sm_site::Site;
use sm_words::ExportOrder;
use std::alloc::Global;

// What came of an export is told; a file that was begun is followed by no line.
fn ended(alloc: Global, exported: Exported) -> Result<Answer, NoMemory>
    ensures told { IfOk result (λ answer. TellsExport (ends.Ended exported) answer) }
    ensures unwritten { OnErr result (IsUnwritten (ends.Ended exported)) }
{
    match exported {
        Exported::Done { written: _ } => Ok(Answer::Found(Bytes::from_vec(Vec::new(alloc)))),
        Exported::Input(refusal) => Ok(Answer::Refused(refusal_line(alloc, &refusal)?)),
        Exported::Other(cause) => Ok(Answer::Clash(clash_line(alloc, cause)?)),
        Exported::DiskFault => Ok(Answer::Unfinished(Stop::Disk)),
        Exported::Damaged => Ok(Answer::Unfinished(Stop::Damaged)),
        Exported::WriteFault => Ok(Answer::Unfinished(Stop::Output)),
        Exported::NoMemory { begun: true } => Ok(Answer::Unfinished(Stop::Memory)),
        Exported::NoMemory { begun: false } => Ok(Answer::Starved),
    }
}

fn unread(fault: InputFault) -> Answer
    ensures { TellsExport (ends.Unread fault) result }
{
    match fault {
        InputFault::Failed => Answer::Unread,
        InputFault::TooLong => Answer::TooLong,
        InputFault::NoMemory => Answer::Starved,
    }
}

// What came of a store is told.
fn told(alloc: Global, comes: StoreExport) -> Result<Answer, NoMemory>
    ensures told { IfOk result (λ answer. TellsExport comes answer) }
    ensures unwritten { OnErr result (IsUnwritten comes) }
{
    match comes {
        StoreExport::Ended(exported) => ended(alloc, exported),
        StoreExport::Unopened(fault) => refused(alloc, fault),
        StoreExport::Unread(fault) => Ok(unread(fault)),
    }
}

/// Exports the quality that the order names from the store in its folder, behind the header in the input, to the output.
pub fn export<I: Source, O: Sink, S: Site>(
    alloc: Global,
    input: &mut I,
    output: &mut O,
    site: &mut S,
    order: ExportOrder,
) -> Answer
    ensures selected { IsSelected result (at_folder (string_bytes order.store)) (S.Disk.seen.view site.old) (S.Disk.seen.view site.new) }
    ensures means { ExportMeans order.name order.bitrate (S.Disk.seen.view site.old) (S.Disk.seen.view site.new)
        (end_of I.left I.faults input.old) (end_of I.left I.faults input.new) (end_of O.held O.faults output.old)
        (end_of O.held O.faults output.new) result }
    ensures log { LeavesLog S.Disk.seen site.old site.new }
    ensures counted { I.faults input.old ≤ I.faults input.new }
    ensures later { O.faults output.old ≤ O.faults output.new }
    ensures silent { IsSilent (S.Disk.seen.view site.old) (S.Disk.seen.view site.new) }
    ensures stores { KeepsStores S.Disk.seen site.old site.new ((line : List ℕ) × (result ≡ answers.NotAStore line)) }
{
    let ExportOrder {
        store,
        name,
        bitrate,
    } = order;
    let comes = export_store(alloc, input, output, site, store, &name, bitrate);
    or_starved(told(alloc, comes))
}
