//! The disk of a site in memory.
ghost use Rattle.std.specs.Prelude.{◌≡◌, ◌+◌, ◌<◌, ◌≤◌, ◌^◌, length, false, refl, IfSome, IfOk, OnOk, OnErr};
ghost use Rattle.sm_site.specs.Image.{bytes_of, WritesAt, TearsAt};
ghost use Rattle.sm_site.specs.Meanings.{SameLink};
ghost use Rattle.sm_site.specs.Meanings.Deed.{Sized, Read, Wrote, Synced};
ghost use Rattle.sm_site.specs.Clauses.{Both, HasCause, Rose, Passes, Follows, NoMore, Durable, Notes, NotesFault, read};
ghost use Rattle.sm_site.specs.Faults.{FailsAs, after_disk, after_write, disk_fails, is_listed, is_stopped, one_less, one_more, write_fails};
ghost use Rattle.sm_site.specs.Memory.{Reaches, faults_of, site_may_leave, site_seen, site_view, state_of};
ghost use Rattle.sm_site.specs.PastLaws.{contents_pass, at_now, now_at};

use crate::files::{bytes_in, read_bytes};
use crate::note::{note, note_write};
use crate::pending::forget;
use crate::{Disk, Failed, MemorySite, Numbers, Step};

// Counts a call, and tells whether it is to fail.
pub(crate) fn is_failing(calls: &mut u64, failing: &Numbers) -> bool
    ensures calls { calls.new ≡ one_more calls.old }
    ensures value { result ≡ is_listed (one_more calls.old) failing.now }
{
    *calls = calls.saturating_add(1);
    failing.contains(*calls)
}

// Counts a write or a sync towards the stop, and tells whether it is behind it.
fn is_behind(stop: &mut Option<u64>) -> bool
    ensures stop { stop.new ≡ one_less stop.old }
    ensures value { result ≡ is_stopped stop.old }
{
    match *stop {
        Some(0) => true,
        Some(n) => {
            *stop = Some(n - 1);
            false
        }
        None => false,
    }
}

#[tactic(auto, using(crate::proofs::Steps::stepping))]
impl Disk for MemorySite {
    ghost seen = { site_seen };

    ghost contents_pass = { λ m. contents_pass (state_of m) };

    ghost calls_told = { λ m. refl };

    ghost told = { λ m t c left. refl };

    ghost at_now = { λ m c left. at_now m.first.items m.past.items c left };

    ghost now_at = { λ m c left. now_at m.first.items m.past.items c left };

    ghost no_later = { λ m t c left. left.0 };

    fn size(&mut self, file: u32) -> Result<u64, Failed>
        ensures size { IfOk result (λ n. IfSome (site_view self.old).contents (λ c. n ≡ length (bytes_of c file))) }
        ensures small { IfOk result (λ n. n < 2 ^ 63) }
        ensures contents { (site_view self.new).contents ≡ (site_view self.old).contents }
        ensures crash { NoMore (site_may_leave self.old) (site_may_leave self.new) }
        ensures time { Passes site_seen self.old self.new }
        ensures note { OnOk result (Notes (Sized file) (site_view self.old) (site_view self.new)) }
        ensures note_fault { OnErr result (NotesFault (Sized file) (site_view self.old) (site_view self.new)) }
        ensures reads { (site_view self.new).reads ≡ (site_view self.old).reads }
        ensures cause { HasCause (site_view self.old).disk_faults (site_view self.new).disk_faults result }
        ensures link { SameLink (site_view self.old) (site_view self.new) }
        ensures faults { FailsAs disk_fails after_disk (faults_of self.old) (faults_of self.new) result }
    {
        let fails = is_failing(&mut self.disk_calls, &self.disk_failing);
        if note(&mut self.past, self.live.len(), Step::Sized(file, fails)).is_err() {
            self.starved = true;
            self.disk_faults = self.disk_faults.saturating_add(1);
            return Err(Failed);
        }
        if fails {
            self.disk_faults = self.disk_faults.saturating_add(1);
            return Err(Failed);
        }
        Ok(bytes_in(&self.files, file).len() as u64)
    }

    fn read_at(&mut self, file: u32, at: u64, into: &mut [u8]) -> Result<(), Failed>
        ensures bytes { OnOk result (IfSome (site_view self.old).contents (λ c. into.new ≡ read (bytes_of c file) at (length into.old))) }
        ensures contents { (site_view self.new).contents ≡ (site_view self.old).contents }
        ensures crash { NoMore (site_may_leave self.old) (site_may_leave self.new) }
        ensures time { Passes site_seen self.old self.new }
        ensures note { OnOk result (Notes (Read file at (length into.old)) (site_view self.old) (site_view self.new)) }
        ensures note_fault { OnErr result (NotesFault (Read file at (length into.old)) (site_view self.old) (site_view self.new)) }
        ensures reads { Rose (site_view self.old).reads (site_view self.new).reads }
        ensures cause { HasCause (site_view self.old).disk_faults (site_view self.new).disk_faults result }
        ensures link { SameLink (site_view self.old) (site_view self.new) }
        ensures faults { FailsAs disk_fails after_disk (faults_of self.old) (faults_of self.new) result }
    {
        let fails = is_failing(&mut self.disk_calls, &self.disk_failing);
        self.reads = self.reads.saturating_add(1);
        let step = Step::Read(file, at, into.len() as u64, fails);
        if note(&mut self.past, self.live.len(), step).is_err() {
            self.starved = true;
            self.disk_faults = self.disk_faults.saturating_add(1);
            return Err(Failed);
        }
        if fails {
            self.disk_faults = self.disk_faults.saturating_add(1);
            return Err(Failed);
        }
        read_bytes(bytes_in(&self.files, file), at, into);
        Ok(())
    }

    fn write_at(&mut self, file: u32, at: u64, bytes: &[u8]) -> Result<(), Failed>
        requires fits { at + length bytes.now < 2 ^ 63 }
        requires inside { IfSome (site_view self.old).contents (λ c. at ≤ length (bytes_of c file)) }
        ensures written { OnOk result (Both (site_view self.old).contents (site_view self.new).contents (WritesAt file at bytes.now)) }
        ensures torn { OnErr result (Both (site_view self.old).contents (site_view self.new).contents (TearsAt file at (length bytes.now))) }
        ensures crash { Follows (TearsAt file at (length bytes.now)) (site_may_leave self.old) (site_may_leave self.new) }
        ensures time { Passes site_seen self.old self.new }
        ensures note { OnOk result (Notes (Wrote file at bytes.now) (site_view self.old) (site_view self.new)) }
        ensures note_fault { OnErr result (NotesFault (Wrote file at bytes.now) (site_view self.old) (site_view self.new)) }
        ensures reads { (site_view self.new).reads ≡ (site_view self.old).reads }
        ensures cause { HasCause (site_view self.old).disk_faults (site_view self.new).disk_faults result }
        ensures link { SameLink (site_view self.old) (site_view self.new) }
        ensures faults { FailsAs write_fails after_write (faults_of self.old) (faults_of self.new) result }
        ensures reached { OnErr result ((faults_of self.new).starved ≡ false
            → Both (site_view self.old).contents (site_view self.new).contents (Reaches (faults_of self.old).reaches file at bytes.now)) }
    {
        let stopped = is_behind(&mut self.stop);
        let fails = is_failing(&mut self.disk_calls, &self.disk_failing) || stopped;
        let reached = !fails || self.reaches;
        let noted = note_write(
            self.alloc,
            &mut self.files,
            &mut self.past,
            &mut self.pending,
            self.live.len(),
            file,
            at,
            bytes,
            fails,
            reached,
        );
        if noted.is_err() {
            self.starved = true;
            self.disk_faults = self.disk_faults.saturating_add(1);
            return Err(Failed);
        }
        if fails {
            self.disk_faults = self.disk_faults.saturating_add(1);
            return Err(Failed);
        }
        Ok(())
    }

    fn sync(&mut self, file: u32) -> Result<(), Failed>
        ensures durable { OnOk result (Durable file (site_view self.new).contents (site_may_leave self.new)) }
        ensures contents { (site_view self.new).contents ≡ (site_view self.old).contents }
        ensures crash { NoMore (site_may_leave self.old) (site_may_leave self.new) }
        ensures time { Passes site_seen self.old self.new }
        ensures note { OnOk result (Notes (Synced file) (site_view self.old) (site_view self.new)) }
        ensures note_fault { OnErr result (NotesFault (Synced file) (site_view self.old) (site_view self.new)) }
        ensures reads { (site_view self.new).reads ≡ (site_view self.old).reads }
        ensures cause { HasCause (site_view self.old).disk_faults (site_view self.new).disk_faults result }
        ensures link { SameLink (site_view self.old) (site_view self.new) }
        ensures faults { FailsAs write_fails after_write (faults_of self.old) (faults_of self.new) result }
    {
        let stopped = is_behind(&mut self.stop);
        let fails = is_failing(&mut self.disk_calls, &self.disk_failing) || stopped;
        if note(&mut self.past, self.live.len(), Step::Synced(file, fails)).is_err() {
            self.starved = true;
            self.disk_faults = self.disk_faults.saturating_add(1);
            return Err(Failed);
        }
        if fails {
            self.disk_faults = self.disk_faults.saturating_add(1);
            return Err(Failed);
        }
        forget(&mut self.pending, file);
        Ok(())
    }
}
