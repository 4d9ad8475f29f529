//! Keeping a fragment.
ghost use Rattle.std.specs.Prelude.{◌≡◌, ◌⊎◌, ◌≢◌, ℕ, ◌+◌, ◌≤◌, ◌<◌, ◌^◌, true, false, List, ◌∷◌, ◌++◌, [], length, Option, None, Some, IfOk, OnOk, IsTrue, IsSome};
ghost use Rattle.sm_model.specs.declared.fragment.Fragment.{Fragment};
ghost use Rattle.sm_model.specs.declared.entry.Entry.{Entry};
ghost use Rattle.sm_model.specs.declared.entry.Entry.TheVariants.{Keep};
ghost use Rattle.sm_model.specs.Fragments.{IsValid};
ghost use Rattle.sm_model.specs.Channels.{IsChannel};
ghost use Rattle.sm_model.specs.Entries.{address_of};
ghost use Rattle.sm_log.specs.declared.verdict.Judged.TheVariants.{New};
ghost use Rattle.sm_log.specs.Logs.{verdict_on};
ghost use Rattle.sm_archive.specs.Steps.{Grows};
ghost use Rattle.sm_site.specs.Meanings.{DiskAlone};
ghost use Rattle.sm_site.specs.Clauses.{Acted, Recorded, Rose, Throughout};
ghost use Rattle.sm_seglog.specs.Segments.{OnlyReserved};
ghost use Rattle.sm_model.specs.declared.cause.Cause.TheVariants as cause;
ghost use Rattle.sm_archive.specs.declared.answers.Keeping.TheVariants as keeping;
ghost use Rattle.sm_archive.specs.Index.{Reserved};
ghost use Rattle.sm_archive.specs.Seen.{limits_of};
ghost use Rattle.sm_archive.specs.Store.{IsStore};
ghost use Rattle.sm_archive.specs.Stands.{IsIndex, IndexIs, Stands};
ghost use Rattle.sm_archive.specs.Keeping.{IsWithin, MeetsLimit, KeepStep};
ghost use Rattle.sm_archive.specs.Reserving.{PendingReserved, IsReserved, HasOneIndex};
ghost use Rattle.sm_archive.specs.Keeper.{ReadyIn, ReadyPending, IsPrepared, Prepared, KeptNew};
ghost use Rattle.sm_archive.specs.declared.archive.Pending.TheVariants as pending;
ghost use Rattle.sm_archive.specs.declared.index.Index.{Index};
ghost use Rattle.sm_record.specs.Bodies.{body_len};
ghost use Rattle.sm_seglog.specs.Segments.{count_of};

use crate::answers::{DiskFault, Keeping};
use crate::archive::{Archive, Pending};
use crate::check::check_of;
use crate::index::Index;
use crate::ready::Ready;
use sm_catalog::Judged;
use sm_model::{Address, Cause, Fragment, NoMemory};
use sm_record::{front_of_a_fragment, put_keep, read_meta};
use sm_seglog::SegLog;
use sm_site::Disk;
use std::alloc::Global;

// What a fragment of this index's channel needs, if it has its track.
fn ready_in(
    alloc: Global,
    log: &mut SegLog,
    index: &mut Index,
    fragment: &Fragment,
) -> Result<Option<Ready>, NoMemory>
    requires valid { IsValid fragment.now }
    requires channel { IsChannel index.old.catalog.channel }
    ensures index { Reserved index.old index.new }
    ensures log { OnlyReserved log.old log.new }
    ensures ready { IfOk result (λ ready. ReadyIn ready fragment.now index.new log.new) }
{
    let address = Address::of(alloc, fragment)?;
    if !index.has_track(&address) {
        return Ok(None);
    }
    index.reserve(&address)?;
    let body = put_keep(alloc, fragment, index.catalog.channel())?;
    log.reserve(body.len() as u32)?;
    let check = check_of(body.as_slice());
    front_of_a_fragment();
    match read_meta(body.as_slice()) {
        Some(meta) => Ok(Some(Ready {
            address,
            meta,
            check,
            body,
        })),
        None => unreachable!(),
    }
}

// The same for an entry in doubt, which may be a header.
fn ready_pending(
    alloc: Global,
    log: &mut SegLog,
    entry: &mut Pending,
    fragment: &Fragment,
) -> Result<Option<Ready>, NoMemory>
    requires valid { IsValid fragment.now }
    requires channel { (i : Index) → entry.old ≡ pending.Declare i → IsChannel i.catalog.channel }
    ensures entry { PendingReserved entry.old entry.new }
    ensures log { OnlyReserved log.old log.new }
    ensures ready { IfOk result (λ ready. ReadyPending ready fragment.now entry.new log.new) }
{
    match entry {
        Pending::Declare(index) => ready_in(alloc, log, index, fragment),
        Pending::Keep(_, _, _) => Ok(None),
    }
}

// That the channel has no track of this address.
fn undeclared(address: Address) -> Cause
    ensures { result ≡ cause.NotDeclared address.stream address.bitrate }
{
    Cause::NotDeclared {
        stream: address.stream,
        bitrate: address.bitrate,
    }
}

impl Archive {
    // Takes all memory that keeping a fragment wants.
    fn ready(&mut self, alloc: Global, fragment: &Fragment) -> Result<Option<Ready>, NoMemory>
        requires valid { IsValid fragment.now }
        requires one { HasOneIndex self.old }
        requires channel { (i : Index) → (self.old.index ≡ Some i → IsChannel i.catalog.channel) × ((bytes : ℕ)
            → self.old.doubt ≡ Some (record { entry = pending.Declare i; bytes = bytes }) → IsChannel i.catalog.channel) }
        ensures reserved { IsReserved self.old self.new }
        ensures prepared { IfOk result (λ ready. Prepared ready self.new fragment.now) }
    {
        match &mut self.index {
            Some(index) => ready_in(alloc, &mut self.log, index, fragment),
            None => match &mut self.doubt {
                Some(doubt) => ready_pending(alloc, &mut self.log, &mut doubt.entry, fragment),
                None => Ok(None),
            },
        }
    }

    // The verdict on a fragment.
    fn judge(&self, ready: &Ready) -> Judged
        ensures { (log : List Entry) (f : Fragment) → IndexIs self.now.index log → ready.now.address ≡ address_of f → ready.now.meta.duration ≡ f.duration
            → result ≡ verdict_on log f }
    {
        match &self.index {
            None => Judged::NotDeclared,
            Some(index) => index.catalog.judge(&ready.address, ready.meta.duration),
        }
    }

    // Whether a fragment meets a limit.
    fn is_full(&self, ready: &Ready) -> bool
        requires index { (i : Index) × (self.now.index ≡ Some i) }
        requires low { self.now.limits.store_bytes ≤ 2 ^ 62 }
        requires short { length ready.now.body < 2 ^ 28 }
        ensures full { (log : List Entry) (f : Fragment) → IndexIs self.now.index log → (count_of self.now.log) ≡ length log → ready.now.address ≡ address_of f
            → length ready.now.body ≡ body_len (Keep f) → result ≡ true → MeetsLimit self.now log f }
        ensures within { (log : List Entry) (f : Fragment) → IndexIs self.now.index log → (count_of self.now.log) ≡ length log
            → ready.now.address ≡ address_of f
            → length ready.now.body ≡ body_len (Keep f) → result ≡ false → IsWithin self.now log f }
    {
        let bytes = 5 + ready.body.len();
        if self.used.saturating_add(bytes) > self.limits.store_bytes {
            return true;
        }
        if self.log.len() >= self.limits.entries {
            return true;
        }
        if !self.log.fits(ready.body.len() as u32) {
            return true;
        }
        match &self.index {
            None => unreachable!(),
            Some(index) => {
                !index.catalog.has_time(&ready.address)
                    && index.catalog.times_len(&ready.address.stream) >= self.limits.times
            }
        }
    }

    // Appends a fragment that is new and meets no limit.
    fn append_keep<D: Disk>(&mut self, disk: &mut D, ready: Ready) -> Keeping
        requires can { (log : List Entry) × (f : Fragment) × Stands self.old log None (D.seen.may_leave disk.old) × IsPrepared 1 self.old ready f × IsValid f
            × (verdict_on log f ≡ New) × IsWithin self.old log f }
        ensures step { (log : List Entry) (f : Fragment) → Stands self.old log None (D.seen.may_leave disk.old) → IsPrepared 1 self.old ready f → IsValid f
            → verdict_on log f ≡ New → IsWithin self.old log f
            → KeptNew (Acted (D.seen.view disk.old) (D.seen.view disk.new)) (D.seen.may_leave disk.new) self.new log f result }
        ensures any_moment { (log : List Entry) (f : Fragment) → Stands self.old log None (D.seen.may_leave disk.old) → IsPrepared 1 self.old ready f → IsValid f
            → verdict_on log f ≡ New → IsWithin self.old log f
            → IsSome (D.seen.view disk.old).contents → Throughout D.seen disk.old disk.new (λ t c. (after : List Entry) × IsStore after c × ((after ≡ log)
            ⊎ (after ≡ log ++ Keep f ∷ []))) }
        ensures no_memory { result ≡ keeping.NoMemory → ⊥ }
        ensures fault { result ≡ keeping.DiskFault → Rose (D.seen.view disk.old).disk_faults (D.seen.view disk.new).disk_faults }
        ensures recorded { Recorded (D.seen.view disk.old) (D.seen.view disk.new) }
        ensures limits { limits_of self.new ≡ limits_of self.old }
        ensures disk_alone { DiskAlone (D.seen.view disk.old) (D.seen.view disk.new) }
    {
        match self.append(
            disk,
            Pending::Keep(ready.address, ready.meta, ready.check),
            ready.body,
        ) {
            Some(place) => Keeping::Kept { place },
            None => Keeping::DiskFault,
        }
    }

    // Keeps a fragment where no entry is in doubt.
    fn keep_ready<D: Disk>(&mut self, disk: &mut D, ready: Ready) -> Keeping
        requires can { (log : List Entry) × (f : Fragment) × Stands self.old log None (D.seen.may_leave disk.old) × IsPrepared 1 self.old ready f × IsValid f }
        ensures step { (log : List Entry) (f : Fragment) → Stands self.old log None (D.seen.may_leave disk.old) → IsPrepared 1 self.old ready f → IsValid f
            → KeptNew (Acted (D.seen.view disk.old) (D.seen.view disk.new)) (D.seen.may_leave disk.new) self.new log f result }
        ensures any_moment { (log : List Entry) (f : Fragment) → Stands self.old log None (D.seen.may_leave disk.old) → IsPrepared 1 self.old ready f → IsValid f
            → IsSome (D.seen.view disk.old).contents → Throughout D.seen disk.old disk.new (λ t c. (after : List Entry) × IsStore after c × ((after ≡ log)
            ⊎ (after ≡ log ++ Keep f ∷ []))) }
        ensures no_memory { result ≡ keeping.NoMemory → ⊥ }
        ensures fault { result ≡ keeping.DiskFault → Rose (D.seen.view disk.old).disk_faults (D.seen.view disk.new).disk_faults }
        ensures recorded { Recorded (D.seen.view disk.old) (D.seen.view disk.new) }
        ensures limits { limits_of self.new ≡ limits_of self.old }
        ensures disk_alone { DiskAlone (D.seen.view disk.old) (D.seen.view disk.new) }
    {
        match self.judge(&ready) {
            Judged::Known { place } => Keeping::Known { place },
            Judged::NotDeclared => Keeping::Refused(undeclared(ready.address)),
            Judged::Clash { kept } => Keeping::Refused(Cause::DurationClash {
                kept,
                given: ready.meta.duration,
            }),
            Judged::Overlap { end } => Keeping::Refused(Cause::Overlap { end }),
            Judged::New => {
                if self.is_full(&ready) {
                    Keeping::Full
                } else {
                    self.append_keep(disk, ready)
                }
            }
        }
    }

    // The same of a fragment whose address was made.
    fn keep_at<D: Disk>(
        &mut self,
        alloc: Global,
        disk: &mut D,
        fragment: &Fragment,
        address: Address,
    ) -> Keeping
        requires address { address ≡ address_of fragment.now }
        requires valid { IsValid fragment.now }
        requires stands { (log : List Entry) × (doubt : Option Entry) × Stands self.old log doubt (D.seen.may_leave disk.old) }
        ensures step { (log : List Entry) (doubt : Option Entry) → Stands self.old log doubt (D.seen.may_leave disk.old)
            → KeepStep (Acted (D.seen.view disk.old) (D.seen.view disk.new)) (D.seen.may_leave disk.new) self.new log doubt fragment.now result }
        ensures any_moment { (log : List Entry) (doubt : Option Entry) → Stands self.old log doubt (D.seen.may_leave disk.old)
            → IsSome (D.seen.view disk.old).contents → Throughout D.seen disk.old disk.new (λ t c. (after : List Entry) × IsStore after c
            × Grows log doubt (Keep fragment.now) after) }
        ensures memory_first { result ≡ keeping.NoMemory → disk.new ≡ disk.old }
        ensures fault { result ≡ keeping.DiskFault → Rose (D.seen.view disk.old).disk_faults (D.seen.view disk.new).disk_faults }
        ensures recorded { Recorded (D.seen.view disk.old) (D.seen.view disk.new) }
        ensures limits { limits_of self.new ≡ limits_of self.old }
        ensures disk_alone { DiskAlone (D.seen.view disk.old) (D.seen.view disk.new) }
    {
        match self.ready(alloc, fragment) {
            Err(NoMemory) => Keeping::NoMemory,
            Ok(ready) => match self.settle(disk) {
                Err(DiskFault) => Keeping::DiskFault,
                Ok(()) => match ready {
                    None => Keeping::Refused(undeclared(address)),
                    Some(ready) => self.keep_ready(disk, ready),
                },
            },
        }
    }

    /// Keeps a fragment, if it is new and no limit is met. An entry in doubt is settled first, and what is said of the log
    /// is then said of the log after that. All memory is taken before the disk is called.
    pub fn keep<D: Disk>(&mut self, alloc: Global, disk: &mut D, fragment: &Fragment) -> Keeping
        requires valid { IsValid fragment.now }
        requires stands { (log : List Entry) × (doubt : Option Entry) × Stands self.old log doubt (D.seen.may_leave disk.old) }
        // It stands for some log again, whichever it stood for.
        ensures stands { (log : List Entry) × (doubt : Option Entry) × Stands self.new log doubt (D.seen.may_leave disk.new) }
        ensures step { (log : List Entry) (doubt : Option Entry) → Stands self.old log doubt (D.seen.may_leave disk.old)
            → KeepStep (Acted (D.seen.view disk.old) (D.seen.view disk.new)) (D.seen.may_leave disk.new) self.new log doubt fragment.now result }
        // A crash at any moment of the call leaves the log from before it, perhaps followed by the doubt, by the fragment, or by both in this order.
        ensures any_moment { (log : List Entry) (doubt : Option Entry) → Stands self.old log doubt (D.seen.may_leave disk.old)
            → IsSome (D.seen.view disk.old).contents → Throughout D.seen disk.old disk.new (λ t c. (after : List Entry) × IsStore after c
            × Grows log doubt (Keep fragment.now) after) }
        // All memory is taken before the disk is called.
        ensures memory_first { result ≡ keeping.NoMemory → disk.new ≡ disk.old }
        ensures fault { result ≡ keeping.DiskFault → Rose (D.seen.view disk.old).disk_faults (D.seen.view disk.new).disk_faults }
        ensures recorded { Recorded (D.seen.view disk.old) (D.seen.view disk.new) }
        ensures limits { limits_of self.new ≡ limits_of self.old }
        ensures disk_alone { DiskAlone (D.seen.view disk.old) (D.seen.view disk.new) }
    {
        match Address::of(alloc, fragment) {
            Err(NoMemory) => Keeping::NoMemory,
            Ok(address) => self.keep_at(alloc, disk, fragment, address),
        }
    }
}
