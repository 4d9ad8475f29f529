//! What a relay and a standby begin with.
ghost use Rattle.std.specs.Prelude.{◌≡◌, ◌≤◌, ℕ, List, None, Some, IfOk, IfErr, IsErrOf, IsSome, OnOk};
ghost use Rattle.sm_model.specs.declared.entry.Entry.{Entry};
ghost use Rattle.sm_model.specs.declared.track.Track.{Track};
ghost use Rattle.sm_log.specs.Logs.{channel_of};
ghost use Rattle.sm_site.specs.Clauses.{NoMore, Throughout};
ghost use Rattle.sm_site.specs.Meanings.{DiskAlone};
ghost use Rattle.sm_archive.specs.Stands.{Stands};
ghost use Rattle.sm_origin.specs.Opening.{HasOneStore};
ghost use Rattle.sm_command.specs.declared.fault.StoreFault.TheVariants as fault;
ghost use Rattle.sm_command.specs.Choosing.{IsChosen};
ghost use Rattle.sm_command.specs.Lasting.{AtEachMoment, IsSilent, Spared, Untouched};
ghost use Rattle.sm_command.specs.Opening.{BeginsWith};
ghost use Rattle.sm_fetch.specs.Exchanges.{IsTurnedTo};
ghost use Rattle.sm_fetch.specs.Origins.{DialGoesOn};
ghost use Rattle.sm_edge.specs.Opening.{IsEdge, IsEdgeStore, WhyNoStore, WhyUnturned, WhyNoEdge};
ghost use Rattle.sm_ends.specs.Ended.{end_of};

use sm_archive::Archive;
use sm_command::{StoreFault, choose, open_declared};
use sm_ends::Source;
use sm_fetch::{Dial, DialError};
use sm_model::{Channel, NoMemory};
use sm_site::{Disk, Selection, Site};
use std::alloc::Global;

/// A store that was opened beside an origin.
#[derive(Drop)]
pub struct Edge {
    pub archive: Archive,
    /// The channel that the archive has.
    pub channel: Channel,
}

// Turns to the origin.
fn turn<C: Dial>(dial: &mut C, host: &str, port: u16) -> Result<(), StoreFault>
    ensures turned { OnOk result (IsTurnedTo (C.chosen dial.new) host.now port) }
    ensures why { IfErr result (WhyUnturned (C.dial_faults dial.old) (C.dial_faults dial.new)) }
    ensures log { C.log dial.new ≡ C.log dial.old }
    ensures dial { DialGoesOn C.store C.later C.dial_faults dial.old dial.new }
{
    match dial.select(host, port) {
        Ok(()) => Ok(()),
        Err(DialError::Failed) => Err(StoreFault::LinkFault),
        Err(DialError::NoMemory) => Err(StoreFault::NoMemory),
    }
}

// An equal channel to that of an archive which has one.
fn channel_of<D: Disk>(alloc: Global, disk: &D, archive: &Archive) -> Result<Channel, NoMemory>
    requires { (log : List Entry) × (channel : List Track) × Stands archive.now log None (D.seen.may_leave disk.now) × (channel_of log ≡ Some channel) }
    ensures { IfOk result (λ own. (log : List Entry) (channel : List Track) → Stands archive.now log None (D.seen.may_leave disk.now)
        → channel_of log ≡ Some channel → own ≡ channel) }
{
    match archive.catalog() {
        Some(catalog) => catalog.channel().copy(alloc),
        None => unreachable!(),
    }
}

// Opens the store of a disk whose folder was chosen, with the ladder of the input, and copies its channel.
fn open_beside<I: Source, D: Disk>(
    alloc: Global,
    input: &mut I,
    disk: &mut D,
) -> Result<Edge, StoreFault>
    ensures opened { IfOk result (λ edge. IsEdgeStore D.seen (end_of I.left I.faults input.old) (end_of I.left I.faults input.new)
        edge.archive edge.channel disk.old disk.new) }
    ensures why { IfErr result (λ why. WhyNoStore D.seen (end_of I.left I.faults input.old) (end_of I.left I.faults input.new)
        disk.old disk.new why) }
    ensures any_moment { IsSome (D.seen.view disk.old).contents → (log : List Entry) → HasOneStore log (D.seen.may_leave disk.old)
        → Throughout D.seen disk.old disk.new (λ t c. BeginsWith log c) }
    ensures untouched { (at : ℕ) → IsErrOf result (fault.NotAStore at) → ((D.seen.view disk.new).contents ≡ (D.seen.view disk.old).contents)
        × NoMore (D.seen.may_leave disk.old) (D.seen.may_leave disk.new) × Throughout D.seen disk.old disk.new (λ t c. D.seen.may_leave disk.old c) }
    ensures spared { Spared D.seen disk.old disk.new }
    ensures disk_alone { DiskAlone (D.seen.view disk.old) (D.seen.view disk.new) }
    ensures counted { I.faults input.old ≤ I.faults input.new }
{
    match open_declared(alloc, input, disk) {
        Ok(archive) => match channel_of(alloc, disk, &archive) {
            Ok(channel) => Ok(Edge { archive, channel }),
            Err(NoMemory) => Err(StoreFault::NoMemory),
        },
        Err(fault) => Err(fault),
    }
}

/// Chooses the folder of a site's disk, turns the dial to the origin, opens the store, and reads the input to its end as a ladder, at most
/// 1,048,576 bytes, whose channel is declared; one that stands already is to have its tracks. It makes no exchange, and nothing is sent or
/// taken from the site's link. A fault of the link is the dial's, where the selection asks for no port.
pub fn open_edge<I: Source, S: Site, C: Dial>(
    alloc: Global,
    input: &mut I,
    site: &mut S,
    dial: &mut C,
    selection: Selection,
    host: &str,
    port: u16,
) -> Result<Edge, StoreFault>
    ensures chosen { IsChosen result selection (S.Disk.seen.view site.old) (S.Disk.seen.view site.new) }
    ensures opened { IfOk result (λ edge. IsEdge S.Disk.seen (end_of I.left I.faults input.old) (end_of I.left I.faults input.new)
        edge.archive edge.channel selection site.old site.new) }
    ensures turned { OnOk result (IsTurnedTo (C.chosen dial.new) host.now port) }
    ensures why { IfErr result (WhyNoEdge S.Disk.seen (end_of I.left I.faults input.old) (end_of I.left I.faults input.new)
        (C.dial_faults dial.old) (C.dial_faults dial.new) selection site.old site.new) }
    ensures log { C.log dial.new ≡ C.log dial.old }
    ensures dial { DialGoesOn C.store C.later C.dial_faults dial.old dial.new }
    // Where each image that a crash might have left was one store, a crash leaves at each moment a store whose log begins with that one.
    ensures any_moment { IsSome (S.Disk.seen.view site.old).contents → (log : List Entry) → HasOneStore log (S.Disk.seen.may_leave site.old)
        → AtEachMoment S.Disk.seen site.old site.new (BeginsWith log) }
    // What is no store isn't written.
    ensures untouched { (at : ℕ) → IsErrOf result (fault.NotAStore at) → Untouched S.Disk.seen site.old site.new }
    // Files that are no store aren't written, whatever the answer.
    ensures spared { Spared S.Disk.seen site.old site.new }
    ensures silent { IsSilent (S.Disk.seen.view site.old) (S.Disk.seen.view site.new) }
    ensures counted { I.faults input.old ≤ I.faults input.new }
{
    choose(site, selection)?;
    turn(dial, host, port)?;
    open_beside(alloc, input, site)
}
