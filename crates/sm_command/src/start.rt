//! Opening a store to be served, with its ladder.
ghost use Rattle.std.specs.Prelude.{◌≡◌, ◌≤◌, ℕ, List, Option, Ok, IfOk, IfErr, IsErrOf};
ghost use Rattle.sm_model.specs.Channels.{IsChannel};
ghost use Rattle.sm_model.specs.declared.entry.Entry.{Entry};
ghost use Rattle.sm_site.specs.Clauses.{NoMore, Throughout};
ghost use Rattle.sm_site.specs.Meanings.{DiskAlone};
ghost use Rattle.sm_archive.specs.Store.{IsStore};
ghost use Rattle.sm_origin.specs.Opening.{HasOneStore};
ghost use Rattle.sm_serve.specs.Serving.{Begins, Serves};
ghost use Rattle.sm_serve.specs.Standing.{History, StandsForSome};
ghost use Rattle.sm_command.specs.declared.fault.StoreFault.TheVariants as fault;
ghost use Rattle.sm_command.specs.Choosing.{IsChosen};
ghost use Rattle.sm_command.specs.Lasting.{AtEachMoment, IsSilent, Spared, Untouched};
ghost use Rattle.sm_command.specs.Serving.{Found, IsLadderInput, DeclaresTo, GoesUnseen, LadderMeans, PrepareMeans, WhyUnopened, WhyNoLadder, outcome_of};
ghost use Rattle.sm_ends.specs.Ended.{end_of};

use crate::StoreFault;
use crate::choosing::choose;
use sm_archive::{Declared, Limits, OpenFault};
use sm_ends::{Source, read_input};
use sm_model::Channel;
use sm_serve::State;
use sm_site::{Selection, Site};
use sm_smil::{SmilFault, read_ladder};
use std::alloc::Global;

// The most bytes that a ladder may have.
const LADDER: u64 = 1_048_576;

// Opens the store of a site that was selected.
fn start<S: Site>(alloc: Global, site: &mut S) -> Result<State, StoreFault>
    ensures found { IfOk result (λ state. Found S.Disk.seen state site.old site.new) }
    ensures begins { IfOk result (λ state. Begins S.Disk.seen state site.new) }
    ensures any_moment { (log : List Entry) → HasOneStore log (S.Disk.seen.may_leave site.old)
        → Throughout S.Disk.seen site.old site.new (λ t c. IsStore log c) }
    ensures untouched { (at : ℕ) → IsErrOf result (fault.NotAStore at) → ((S.Disk.seen.view site.new).contents ≡ (S.Disk.seen.view site.old).contents)
        × NoMore (S.Disk.seen.may_leave site.old) (S.Disk.seen.may_leave site.new)
        × Throughout S.Disk.seen site.old site.new (λ t c. S.Disk.seen.may_leave site.old c) }
    ensures spared { Spared S.Disk.seen site.old site.new }
    ensures why { IfErr result (λ why. WhyUnopened (S.Disk.seen.view site.old) (S.Disk.seen.view site.new) why) }
    ensures disk_alone { DiskAlone (S.Disk.seen.view site.old) (S.Disk.seen.view site.new) }
{
    match State::start(alloc, site, Limits::standard()) {
        Ok(state) => Ok(state),
        Err(OpenFault::DiskFault) => Err(StoreFault::DiskFault),
        Err(OpenFault::NotAStore { at }) => Err(StoreFault::NotAStore { at }),
        Err(OpenFault::NoMemory) => Err(StoreFault::NoMemory),
    }
}

/// Chooses the folder and the port, and opens the store there.
pub fn open_state<S: Site>(
    alloc: Global,
    site: &mut S,
    selection: Selection,
) -> Result<State, StoreFault>
    ensures chosen { IsChosen result selection (S.Disk.seen.view site.old) (S.Disk.seen.view site.new) }
    ensures found { IfOk result (λ state. Found S.Disk.seen state site.old site.new) }
    ensures begins { IfOk result (λ state. Begins S.Disk.seen state site.new) }
    // Where every image was one store, it stays that at each moment.
    ensures any_moment { (log : List Entry) → HasOneStore log (S.Disk.seen.may_leave site.old)
        → AtEachMoment S.Disk.seen site.old site.new (IsStore log) }
    ensures untouched { (at : ℕ) → IsErrOf result (fault.NotAStore at) → Untouched S.Disk.seen site.old site.new }
    ensures spared { Spared S.Disk.seen site.old site.new }
    ensures why { IfErr result (λ why. WhyUnopened (S.Disk.seen.view site.old) (S.Disk.seen.view site.new) why) }
    ensures silent { IsSilent (S.Disk.seen.view site.old) (S.Disk.seen.view site.new) }
{
    choose(site, selection)?;
    start(alloc, site)
}

// The channel of the ladder that the input is.
pub(crate) fn ladder_of<I: Source>(alloc: Global, input: &mut I) -> Result<Channel, StoreFault>
    ensures read { IfOk result (λ channel. IsLadderInput (I.left input.old) (I.left input.new) (Ok channel)) }
    ensures valid { IfOk result IsChannel }
    ensures why { IfErr result (λ why. WhyNoLadder (end_of I.left I.faults input.old) (end_of I.left I.faults input.new) why) }
    ensures counted { I.faults input.old ≤ I.faults input.new }
{
    let text = read_input(alloc, input, LADDER)?;
    match read_ladder(alloc, text.as_slice()) {
        Ok(channel) => Ok(channel),
        Err(SmilFault::Bad { at }) => Err(StoreFault::BadLadder { at }),
        Err(SmilFault::NoMemory) => Err(StoreFault::NoMemory),
    }
}

// What an answer to a ladder comes to.
pub(crate) fn outcome_of(answer: Declared) -> Result<(), StoreFault>
    ensures { result ≡ outcome_of answer }
{
    match answer {
        Declared::Fixed | Declared::Agreed => Ok(()),
        Declared::Refused(cause) => Err(StoreFault::Refused(cause)),
        Declared::Full => Err(StoreFault::Full),
        Declared::DiskFault => Err(StoreFault::DiskFault),
        Declared::NoMemory => Err(StoreFault::NoMemory),
    }
}

// Declares the channel of a ladder.
fn declare<S: Site>(site: &mut S, state: &mut State, channel: &Channel) -> Result<(), StoreFault>
    requires valid { IsChannel channel.now }
    requires stands { StandsForSome S.Disk.seen state.old.origin site.old }
    ensures declares { (told told' : Option (List ℕ)) → IsLadderInput told told' (Ok channel.now)
        → DeclaresTo S.Disk.seen told told' state.old site.old state.new site.new result }
    ensures unseen { (h : History) → Serves S.Disk.seen h state.old site.old → GoesUnseen S.Disk.seen h state.new site.new }
    ensures stands { StandsForSome S.Disk.seen state.new.origin site.new }
    ensures disk_alone { DiskAlone (S.Disk.seen.view site.old) (S.Disk.seen.view site.new) }
{
    let answer = state.declare(site, channel);
    outcome_of(answer)
}

// Reads a ladder and declares it.
fn declare_ladder<I: Source, S: Site>(
    alloc: Global,
    input: &mut I,
    site: &mut S,
    state: &mut State,
) -> Result<(), StoreFault>
    requires stands { StandsForSome S.Disk.seen state.old.origin site.old }
    ensures means { LadderMeans S.Disk.seen (end_of I.left I.faults input.old)
        (end_of I.left I.faults input.new) state.old site.old state.new site.new result }
    ensures unseen { (h : History) → Serves S.Disk.seen h state.old site.old → GoesUnseen S.Disk.seen h state.new site.new }
    ensures stands { StandsForSome S.Disk.seen state.new.origin site.new }
    ensures disk_alone { DiskAlone (S.Disk.seen.view site.old) (S.Disk.seen.view site.new) }
    ensures counted { I.faults input.old ≤ I.faults input.new }
{
    let channel = ladder_of(alloc, input)?;
    declare(site, state, &channel)
}

/// Declares the ladder that the input is, if one is asked for.
pub fn prepare<I: Source, S: Site>(
    alloc: Global,
    input: &mut I,
    site: &mut S,
    state: &mut State,
    ladder: bool,
) -> Result<(), StoreFault>
    requires stands { StandsForSome S.Disk.seen state.old.origin site.old }
    ensures means { PrepareMeans S.Disk.seen ladder (end_of I.left I.faults input.old)
        (end_of I.left I.faults input.new) state.old site.old state.new site.new result }
    ensures unseen { (h : History) → Serves S.Disk.seen h state.old site.old → GoesUnseen S.Disk.seen h state.new site.new }
    ensures stands { StandsForSome S.Disk.seen state.new.origin site.new }
    ensures disk_alone { DiskAlone (S.Disk.seen.view site.old) (S.Disk.seen.view site.new) }
    ensures counted { I.faults input.old ≤ I.faults input.new }
{
    if ladder {
        return declare_ladder(alloc, input, site, state);
    }
    Ok(())
}
