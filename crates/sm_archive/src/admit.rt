//! Taking in a body of a store, where its entry may stand behind those before it.
ghost use Rattle.std.specs.Prelude.{◌≡◌, ◌↔◌, ℕ, ◌+◌, ◌<◌, ◌^◌, List, [], ◌∷◌, ◌++◌, length, None, Some, true, IfOk, OnOk, IsErrOf, IsTrue};
ghost use Rattle.sm_model.specs.declared.fragment.Fragment.{Fragment};
ghost use Rattle.sm_model.specs.declared.entry.Entry.{Entry};
ghost use Rattle.sm_model.specs.declared.entry.Entry.TheVariants.{Keep};
ghost use Rattle.sm_log.specs.declared.verdict.Judged.TheVariants.{New};
ghost use Rattle.sm_log.specs.Adds.{verdict};
ghost use Rattle.sm_log.specs.Logs.{channel_of, FitsBehind};
ghost use Rattle.sm_record.specs.Bodies.{IsBody};
ghost use Rattle.sm_record.specs.declared.fault.RecordFault.TheVariants.{Damaged};
ghost use Rattle.sm_archive.specs.Stands.{IsIndex, IndexIs};
ghost use Rattle.sm_archive.specs.Opening.{IsMisfit, IsWalked};

use crate::check::check_of;
use crate::index::Index;
use sm_catalog::Judged;
use sm_model::{Address, Entry, Fragment};
use sm_record::{RecordFault, a_body_has_one_entry, front_of_a_fragment, read_entry, read_meta};
use std::alloc::Global;

// The index of a log that has this entry alone.
fn index_of(alloc: Global, entry: Entry) -> Result<Index, RecordFault>
    ensures fits { IfOk result (λ index. FitsBehind [] entry × IsIndex index (entry ∷ [])) }
    ensures damaged { IsErrOf result Damaged → FitsBehind [] entry → ⊥ }
{
    match entry {
        Entry::Keep(_) => Err(RecordFault::Damaged),
        Entry::Declare(channel) => {
            if channel.is_valid() {
                Ok(Index::of_header(alloc, &channel)?)
            } else {
                Err(RecordFault::Damaged)
            }
        }
    }
}

// The index of a log that has this body alone.
fn admit_first(alloc: Global, body: &[u8]) -> Result<Index, RecordFault>
    ensures fits { IfOk result (λ index. (e : Entry) × IsBody None e body.now × FitsBehind [] e × IsIndex index (e ∷ [])) }
    ensures damaged { IsErrOf result Damaged → IsMisfit [] body.now }
{
    a_body_has_one_entry();
    match read_entry(alloc, body, None) {
        Err(fault) => Err(fault),
        Ok(entry) => index_of(alloc, entry),
    }
}

// Whether a fragment is new to an index.
fn is_new(index: &Index, address: &Address, duration: u64) -> bool
    ensures { (result ≡ true) ↔ (verdict index.now.catalog.channel index.now.catalog.adds address.now duration ≡ New) }
{
    match index.catalog.judge(address, duration) {
        Judged::NotDeclared => false,
        Judged::New => true,
        Judged::Known { place: _ } => false,
        Judged::Clash { kept: _ } => false,
        Judged::Overlap { end: _ } => false,
    }
}

// Takes in a fragment whose body this is, where it may stand behind the log.
fn admit_fragment(
    alloc: Global,
    index: &mut Index,
    body: &[u8],
    fragment: &Fragment,
    place: u64,
) -> Result<(), RecordFault>
    requires is { IsBody (Some index.old.catalog.channel) (Keep fragment.now) body.now }
    ensures fits { OnOk result ((log : List Entry) → IsIndex index.old log → place ≡ length log → FitsBehind log (Keep fragment.now)
        × IsIndex index.new (log ++ Keep fragment.now ∷ [])) }
    ensures damaged { IsErrOf result Damaged → (log : List Entry) → IsIndex index.old log → FitsBehind log (Keep fragment.now) → ⊥ }
{
    if !fragment.is_valid() {
        return Err(RecordFault::Damaged);
    }
    let address = Address::of(alloc, fragment)?;
    if !is_new(index, &address, fragment.duration) {
        return Err(RecordFault::Damaged);
    }
    index.reserve(&address)?;
    front_of_a_fragment();
    match read_meta(body) {
        Some(meta) => {
            index.add(&address, meta, check_of(body), place);
            Ok(())
        }
        None => unreachable!(),
    }
}

// The same for an entry.
fn admit_entry(
    alloc: Global,
    index: &mut Index,
    body: &[u8],
    entry: Entry,
    place: u64,
) -> Result<(), RecordFault>
    requires is { IsBody (Some index.old.catalog.channel) entry body.now }
    ensures fits { OnOk result ((log : List Entry) → IsIndex index.old log → place ≡ length log → FitsBehind log entry
        × IsIndex index.new (log ++ entry ∷ [])) }
    ensures damaged { IsErrOf result Damaged → (log : List Entry) → IsIndex index.old log → FitsBehind log entry → ⊥ }
{
    match entry {
        Entry::Declare(_) => Err(RecordFault::Damaged),
        Entry::Keep(fragment) => admit_fragment(alloc, index, body, &fragment, place),
    }
}

// The same for a body.
fn admit_next(alloc: Global, index: &mut Index, body: &[u8], place: u64) -> Result<(), RecordFault>
    ensures fits { OnOk result ((log : List Entry) → IsIndex index.old log → place ≡ length log → (e : Entry) × IsBody (channel_of log) e body.now
        × FitsBehind log e × IsIndex index.new (log ++ e ∷ [])) }
    ensures damaged { IsErrOf result Damaged → (log : List Entry) → IsIndex index.old log → IsMisfit log body.now }
{
    a_body_has_one_entry();
    match read_entry(alloc, body, Some(index.catalog.channel())) {
        Err(fault) => Err(fault),
        Ok(entry) => admit_entry(alloc, index, body, entry, place),
    }
}

// The same, for an index that may be that of no entry.
fn admit_entry_of(
    alloc: Global,
    index: &mut Option<Index>,
    body: &[u8],
    place: u64,
) -> Result<(), RecordFault>
    ensures fits { OnOk result ((log : List Entry) → IndexIs index.old log → place ≡ length log → (e : Entry) × IsBody (channel_of log) e body.now
        × FitsBehind log e × IndexIs index.new (log ++ e ∷ [])) }
    ensures damaged { IsErrOf result Damaged → (log : List Entry) → IndexIs index.old log → IsMisfit log body.now }
{
    match index {
        None => {
            let own = admit_first(alloc, body)?;
            *index = Some(own);
            Ok(())
        }
        Some(index) => admit_next(alloc, index, body, place),
    }
}

// Takes in the body of a place, where its entry may stand behind those before it. It is damaged where it may not.
pub(crate) fn admit(
    alloc: Global,
    index: &mut Option<Index>,
    used: &mut u64,
    body: &[u8],
    place: u64,
) -> Result<(), RecordFault>
    ensures fits { OnOk result ((seen : List (List ℕ)) (log : List Entry) → IsWalked index.old used.old seen log → length seen ≡ place → (e : Entry)
        × IsWalked index.new used.new (seen ++ body.now ∷ []) (log ++ e ∷ [])) }
    ensures damaged { IsErrOf result Damaged → (seen : List (List ℕ)) (log : List Entry) → IsWalked index.old used.old seen log → length seen ≡ place
        → IsMisfit log body.now }
{
    if place >= (1 << 32) - 1 {
        return Err(RecordFault::Damaged);
    }
    admit_entry_of(alloc, index, body, place)?;
    *used = used.saturating_add(5 + body.len() as u64);
    Ok(())
}
