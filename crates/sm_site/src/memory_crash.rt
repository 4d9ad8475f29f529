//! How a site in memory is selected, how it goes on, and how it crashes.
ghost use Rattle.std.specs.Prelude.{◌≡◌, ◌≤◌, ◌++◌, ◌∷◌, [], ℕ, List, IfOk, IfSome, IsErrOf, IsOk, IsTrue, OnOk, OnErr, None, Some, refl, false, is_some};
ghost use Rattle.std.specs.Prelude.{length, take};
ghost use Rattle.sm_site.specs.Image.{bytes_of};
ghost use Rattle.sm_site.specs.Meanings.{asked, sent_on};
ghost use Rattle.sm_site.specs.Clauses.{Both, Passes, Kept, Rose, SameOutcomes, Settled};
ghost use Rattle.sm_site.specs.Past.{begins, is_open, is_ordered, items_from};
ghost use Rattle.sm_site.specs.Scripts.{deals_of, is_script, numbers_after};
ghost use Rattle.sm_site.specs.Sites.{SameBut, SameCounts, Undisturbed};
ghost use Rattle.sm_site.specs.Sending.{sent_after};
ghost use Rattle.sm_site.specs.Memory.{coming, faults_of, site_left_by, site_may_leave, site_numbers, site_openings, site_seen, site_view};

use crate::next_number::{above_past, above_script};
use crate::note::has_begun;
use crate::pending::crash_files;
use crate::{Crashing, Event, MemorySite, Piece, Script, Selection, Site, SiteError, Step};
use std::alloc::AllocError;

// Puts events behind a script, all of them or none.
fn add_events(script: &mut Vec<Event>, events: Vec<Event>) -> Result<(), AllocError>
    ensures added { OnOk result (script.new.items ≡ script.old.items ++ events.items) }
    ensures refused { OnErr result (script.new.items ≡ script.old.items) }
{
    let mut events = events;
    script.append(&mut events)?;
    Ok(())
}

// What a step adds to the bytes that went out on a connection.
fn add_sent(bytes: &mut Vec<u8>, conn: u64, step: &Step) -> Result<(), AllocError>
    ensures { OnOk result (bytes.new.items ≡ sent_after conn bytes.old.items step.now) }
{
    match step {
        Step::Sent(to, part, _) => {
            if *to == conn {
                bytes.extend_from_slice(part)?;
            }
        }
        Step::Crashed(_) => bytes.clear(),
        _ => {}
    }
    Ok(())
}

// Whether all that went out on a connection since the last crash stands behind this step.
fn begins(step: &Step, conn: u64) -> bool
    ensures { result ≡ begins conn step.now }
{
    match step {
        Step::Took(Event::Opened(number)) => *number == conn,
        Step::Crashed(_) => true,
        _ => false,
    }
}

// A place before which nothing went out on a connection since the last crash: behind its opening, or behind the crash.
fn begun_at(past: &[Step], conn: u64) -> usize
    requires { IsTrue (is_ordered 0 past.now) }
    ensures within { result ≤ length past.now }
    ensures before { sent_on conn (items_from 0 (take result past.now)) ≡ [] }
{
    let mut at = past.len();
    while at > 0 && !begins(&past[at - 1], conn) {
        at -= 1;
    }
    at
}

impl MemorySite {
    // Keeps one image, in place. The record of the next opening begins behind the crash. Behind a crash there is nothing to be done.
    pub(crate) fn crash_in_place(&mut self, choice: u8)
        ensures crashed { IsTrue (is_open self.old.past.items) → self.new.past.items ≡ self.old.past.items ++ Step.Crashed choice ∷ [] }
        ensures same { is_open self.old.past.items ≡ false → self.new.past.items ≡ self.old.past.items }
        ensures first { self.new.first.items ≡ self.old.first.items }
        ensures coming { coming self.new ≡ [] }
        ensures taken { self.new.taken ≡ 0 }
        ensures counts { SameCounts (site_view self.old) (site_view self.new) }
        ensures selected { self.new.selected ≡ self.old.selected }
        ensures faults { faults_of self.new ≡ record (faults_of self.old) { stop = None } }
    {
        crash_files(&mut self.files, &mut self.pending, choice);
        self.live.clear();
        self.stop = None;
        self.script.clear();
        self.taken = 0;
        if has_begun(&self.past) {
            match self.past.push(Step::Crashed(choice)) {
                Ok(()) => {}
                Err(_) => unreachable!(),
            }
        }
    }
}

#[tactic(auto, using(crate::proofs::Steps::stepping))]
impl Site for MemorySite {
    ghost one = { record {
      view = λ s. refl;
      may_leave = λ s c. (λ x. x, λ x. x);
      left_at = λ s t c. (λ x. x, λ x. x);
    } };

    fn select(&mut self, selection: Selection) -> Result<(), SiteError>
        ensures chosen { OnOk result ((site_view self.new).chosen ≡ asked (site_view self.old).chosen (Some selection)) }
        ensures unchosen { OnErr result ((site_view self.new).chosen ≡ asked (site_view self.old).chosen None) }
        ensures contents { (site_view self.new).contents ≡ (site_view self.old).contents }
        ensures calls { (site_view self.new).calls ≡ (site_view self.old).calls }
        ensures reads { (site_view self.new).reads ≡ (site_view self.old).reads }
        ensures transcript { (site_view self.new).transcript ≡ (site_view self.old).transcript }
        ensures script { (site_view self.new).script ≡ (site_view self.old).script }
        ensures send_faults { (site_view self.new).send_faults ≡ (site_view self.old).send_faults }
        ensures numbers { site_numbers self.new ≡ site_numbers self.old }
        ensures disk_faults { (site_view self.old).disk_faults ≤ (site_view self.new).disk_faults }
        ensures link_faults { (site_view self.old).link_faults ≤ (site_view self.new).link_faults }
        ensures disk { IsErrOf result SiteError.Disk → Rose (site_view self.old).disk_faults (site_view self.new).disk_faults }
        ensures link { IsErrOf result SiteError.Link → Rose (site_view self.old).link_faults (site_view self.new).link_faults }
        ensures crash { SameOutcomes (site_may_leave self.old) (site_may_leave self.new) }
        ensures time { Passes site_seen self.old self.new }
        ensures never { IsOk result }
        ensures faults { faults_of self.new ≡ faults_of self.old }
    {
        self.selected.ask(Some(selection));
        Ok(())
    }
}

#[tactic(auto, using(crate::proofs::Steps::stepping))]
impl Crashing for MemorySite {
    ghost openings = { λ m. site_openings m };

    ghost is_starved = { λ m. (faults_of m).starved };

    ghost stop = { λ m. (faults_of m).stop };

    ghost left_by = { site_left_by };

    ghost tells = { λ m. record { contents = refl; transcript = refl; script = refl } };

    fn next_number(&self) -> Option<u64> {
        above_script(above_past(&self.past), &self.script[self.taken..])
    }

    fn extend(&mut self, events: Script) -> Result<(), AllocError>
        requires script { IfSome (site_view self.old).script (λ deals. IsTrue (is_script (numbers_after (site_numbers self.old) deals) events)) }
        ensures added { OnOk result (Both (site_view self.old).script (site_view self.new).script (λ old new. new ≡ old ++ deals_of events)) }
        ensures refused { OnErr result ((site_view self.new).script ≡ (site_view self.old).script) }
        ensures view { SameBut (site_view self.old) (site_view self.new) }
        ensures keeps { Undisturbed site_seen site_numbers site_openings (λ m. (faults_of m).starved) site_left_by self.old self.new }
        ensures stop { (faults_of self.new).stop ≡ (faults_of self.old).stop }
        ensures faults { faults_of self.new ≡ faults_of self.old }
    {
        add_events(&mut self.script, events.into_vec())
    }

    fn sent(&self, conn: u64) -> Result<Piece, AllocError> {
        let begun = begun_at(&self.past, conn);
        let mut bytes = Vec::new(self.alloc);
        for step in &self.past[begun..] {
            add_sent(&mut bytes, conn, step)?;
        }
        Ok(Piece::from_vec(bytes))
    }

    fn stop_after(&mut self, calls: u64)
        ensures view { (site_view self.new) ≡ (site_view self.old) }
        ensures keeps { Undisturbed site_seen site_numbers site_openings (λ m. (faults_of m).starved) site_left_by self.old self.new }
        ensures stop { (faults_of self.new).stop ≡ Some calls }
        ensures faults { faults_of self.new ≡ record (faults_of self.old) { stop = Some calls } }
    {
        self.stop = Some(calls);
    }

    fn crash_here(&mut self, choice: u8)
        ensures kept { IfSome (site_view self.new).contents (λ now. (file : ℕ) → bytes_of now file ≡ bytes_of (site_left_by self.old choice) file) }
        ensures image { IfSome (site_view self.new).contents (site_may_leave self.old) }
        ensures told { is_some (site_view self.new).contents ≡ is_some (site_view self.old).contents }
        ensures settled { IfSome (site_view self.new).contents (λ now. Settled now (site_may_leave self.new)) }
        ensures transcript { IfSome (site_view self.new).transcript (λ items. items ≡ []) }
        ensures script { IfSome (site_view self.new).script (λ deals. deals ≡ []) }
        ensures openings { IfSome (site_view self.old).transcript (λ items. Kept items (site_openings self.old) (site_openings self.new)) }
        ensures numbers { site_numbers self.new ≡ site_numbers self.old }
        ensures counts { SameCounts (site_view self.old) (site_view self.new) }
        ensures chosen { (site_view self.new).chosen ≡ (site_view self.old).chosen }
        ensures starved { (faults_of self.new).starved ≡ (faults_of self.old).starved }
        ensures stop { (faults_of self.new).stop ≡ None }
        ensures faults { faults_of self.new ≡ record (faults_of self.old) { stop = None } }
    {
        self.crash_in_place(choice);
    }

    fn starved(&self) -> bool {
        self.starved
    }
}
