//! A site in memory.
ghost use Rattle.std.specs.Prelude.{◌≡◌, ◌≤◌, ◌<◌, ◌+◌, IsTrue, [], length, drop, vec_len, vec_capacity};
ghost use Rattle.sm_site.specs.Past.{Agrees, IsAfter, Tracks, Undoes, after, image_of, is_open, is_ordered, numbers_of, ranges_from, start};
ghost use Rattle.sm_site.specs.Scripts.{is_script};

use crate::{Event, FileBytes, Numbers, Pending, Script, Selected, Step};
use std::alloc::Global;

/// A disk and a link in memory, on one clock. It keeps the files of its first opening and each call since, so that it tells
/// everything that was done and what a crash at any moment would have left; and it keeps what each pending write put over, so that a
/// crash takes no memory.
///
/// The calls that fail are those whose numbers were listed, the writes and syncs behind a stop, and those for which there was no memory.
#[derive(Drop)]
pub struct MemorySite {
    pub(crate) alloc: Global,
    pub(crate) script: Vec<Event>,
    pub(crate) taken: usize,
    pub(crate) first: Vec<FileBytes>,
    pub(crate) files: Vec<FileBytes>,
    pub(crate) past: Vec<Step>,
    pub(crate) pending: Vec<Pending>,
    pub(crate) live: Vec<u64>,
    pub(crate) disk_failing: Numbers,
    pub(crate) disk_calls: u64,
    pub(crate) link_failing: Numbers,
    pub(crate) link_calls: u64,
    pub(crate) reaches: bool,
    pub(crate) stop: Option<u64>,
    pub(crate) starved: bool,
    pub(crate) reads: u64,
    pub(crate) disk_faults: u64,
    pub(crate) link_faults: u64,
    pub(crate) send_faults: u64,
    pub(crate) selected: Selected,
    // the files are those that the calls make of the first ones
    ghost cached: { IsAfter first.items past.items files.items },
    ghost ranges: { (after (start first.items) past.items).ranges ≡ ranges_from [] pending.items },
    ghost undoes: { Undoes pending.items (image_of files.items) (after (start first.items) past.items).base },
    ghost agrees: { Agrees (after (start first.items) past.items) },
    ghost tracked: { Tracks past.items live.items },
    ghost spare: { IsTrue (is_open past.items) → length live.items + vec_len past + 1 ≤ vec_capacity past },
    ghost within: { taken ≤ length script.items },
    ghost scripted: { IsTrue (is_script (numbers_of past.items) (drop taken script.items)) },
    ghost ordered: { IsTrue (is_ordered 0 past.items) },
}

impl MemorySite {
    ghost use Rattle.std.specs.Prelude.{◌≡◌, ◌↔◌, ℕ, [], IfSome, IsTrue, None, Some, false};
    ghost use Rattle.sm_site.specs.Clauses.{SameOutcomes, Settled};
    ghost use Rattle.sm_site.specs.Image.{Image, bytes_of};
    ghost use Rattle.sm_site.specs.Past.{view_of};
    ghost use Rattle.sm_site.specs.Scripts.{deals_of, is_script};
    ghost use Rattle.sm_site.specs.Memory.{coming, faults_of, site_left_at, site_left_by, site_may_leave, site_numbers, site_openings, site_view};

    /// A site with no files. The numbers, from 1, are those of the disk calls and of the link calls (`next` and `send`) that
    /// fail. It takes no memory.
    pub fn new(
        alloc: Global,
        script: Script,
        disk_failing: Numbers,
        link_failing: Numbers,
    ) -> MemorySite
        requires script { IsTrue (is_script 0 script) }
        ensures view { site_view result ≡ view_of [] [] (deals_of script) 0 0 0 0 (record { selection = None; asks = 0 }) }
        ensures settled { (c : Image) → site_may_leave result c → (file : ℕ) → bytes_of c file ≡ [] }
        ensures openings { site_openings result ≡ [] }
        ensures faults { faults_of result ≡ record {
          disk_failing = disk_failing;
          disk_calls = 0;
          link_failing = link_failing;
          link_calls = 0;
          reaches = false;
          stop = None;
          starved = false;
        } }
    {
        MemorySite {
            alloc,
            script: script.into_vec(),
            taken: 0,
            first: Vec::new(alloc),
            files: Vec::new(alloc),
            past: Vec::new(alloc),
            pending: Vec::new(alloc),
            live: Vec::new(alloc),
            disk_failing,
            disk_calls: 0,
            link_failing,
            link_calls: 0,
            reaches: false,
            stop: None,
            starved: false,
            reads: 0,
            disk_faults: 0,
            link_faults: 0,
            send_faults: 0,
            selected: Selected::never(),
        }
    }

    /// Says whether a write that fails from now on reaches the contents. At first it doesn't.
    pub fn reach(&mut self, reach: bool)
        ensures view { site_view self.new ≡ site_view self.old }
        ensures crash { SameOutcomes (site_may_leave self.old) (site_may_leave self.new) }
        ensures past { (t : ℕ) (c : Image) → site_left_at self.new t c ↔ site_left_at self.old t c }
        ensures numbers { site_numbers self.new ≡ site_numbers self.old }
        ensures openings { site_openings self.new ≡ site_openings self.old }
        ensures faults { faults_of self.new ≡ record (faults_of self.old) { reaches = reach } }
    {
        self.reaches = reach;
    }

    /// How many disk calls there were, through all crashes: sizes, reads, writes and syncs. It stands still at the last value of 64 bits.
    pub fn disk_calls(&self) -> u64
        ensures { result ≡ (faults_of self.now).disk_calls }
    {
        self.disk_calls
    }

    /// What a crash leaves, with a script for the next opening. Choice 0 keeps the old bytes and lengths, choice 1 the new ones,
    /// and any other the new lengths with every pending byte this number. It takes no memory. The new site has nothing pending
    /// and no stop, its script is this one, its transcript and its record of calls are empty; numbers and counts go on.
    pub fn crash(mut self, choice: u8, script: Script) -> MemorySite
        requires script { IsTrue (is_script (site_numbers self) script) }
        ensures kept { IfSome (site_view result).contents (λ now. (file : ℕ) → bytes_of now file ≡ bytes_of (site_left_by self choice) file) }
        ensures image { IfSome (site_view result).contents (site_may_leave self) }
        ensures settled { IfSome (site_view result).contents (λ now. Settled now (site_may_leave result)) }
        ensures transcript { (site_view result).transcript ≡ Some [] }
        ensures calls { (site_view result).calls ≡ Some [] }
        ensures script { (site_view result).script ≡ Some (deals_of script) }
        ensures numbers { site_numbers result ≡ site_numbers self }
        ensures chosen { (site_view result).chosen ≡ (site_view self).chosen }
        ensures faults { faults_of result ≡ record (faults_of self) { stop = None } }
    {
        self.crash_in_place(choice);
        self.script = script.into_vec();
        self
    }
}
