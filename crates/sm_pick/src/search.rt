//! Looking for one fragment in the body of a push, as its pieces come.
ghost use Rattle.std.specs.Prelude.{◌≡◌, ◌≤◌, ◌<◌, ◌+◌, ◌++◌, ◌^◌, ℕ, true, List, [], length, slice_index_or, OnOk, IfOk, None};
ghost use Rattle.std.specs.Option.{option_or};
ghost use Rattle.sm_model.specs.Items.{Given, first_from};
ghost use Rattle.sm_push.specs.Body.{body_end};
ghost use Rattle.sm_push.specs.Standing.{IsPartial};
ghost use Rattle.sm_ends.specs.Ended.{input_most};
ghost use Rattle.sm_pick.specs.Due.{IsDue, refusal_line};
ghost use Rattle.sm_pick.specs.Search.{fragments_in, fragment_of, Hits, IsAmong, IsLooking, LooksBy, Looks};

use crate::picked::Picked;
use crate::seek::{Hit, seek};
use crate::sentences::sentence;
use crate::skim::Skim;
use sm_model::{Bytes, Fragment, Item, Items, NoMemory, Refusal};
use sm_moof::put_fragment;
use sm_push::{StepFault, front, items_are_no_more_than_bytes, items_are_valid};
use std::alloc::Global;

/// What is known of the bytes that came so far. The samples of a fragment that isn't sought are passed over, and what comes of
/// it all the same is dropped with its piece.
#[derive(Drop)]
pub struct Search {
    track: u32,
    time: u64,
    skim: Skim,
    // How many fragments came, or are passed over.
    count: u32,
    // The first one that is sought, behind its place among them, from 1.
    found: Option<(u32, Fragment)>,
    // Why the bytes are no push, once that is known.
    refusal: Option<Refusal>,
}

// The fragment at an index.
fn fragment_at(items: Items, index: usize) -> Option<Fragment>
    requires { index < length items }
    ensures { (d : Given) → result ≡ fragment_of (slice_index_or items index d) }
{
    match items.into_vec().swap_remove(index) {
        Item::Header(_) => None,
        Item::Frag(fragment) => Some(fragment),
    }
}

// The fragment that was hit, behind its place.
fn found_at(items: Items, hit: Option<Hit>) -> Option<(u32, Fragment)>
    requires { IsAmong items hit }
    ensures { (first track time : ℕ) → Hits first track time items hit → result ≡ first_from first track time items }
{
    let hit = hit?;
    let fragment = fragment_at(items, hit.index)?;
    Some((hit.place, fragment))
}

/// The line that says where the input is refused, and why, and the sentence of the cause behind it.
pub fn refusal_line(alloc: Global, refusal: &Refusal) -> Result<Bytes, NoMemory>
    ensures { IfOk result (λ line. line ≡ refusal_line refusal.now) }
{
    let at = refusal.at;
    let number = refusal.cause.number();
    let name = refusal.cause.name();
    let sentence = sentence(&refusal.cause);
    let line = format!(in alloc; "error: input at {at}: {number} {name}\n{sentence}\n")?;
    Ok(Bytes::from_vec(line.into_bytes()))
}

impl Search {
    /// A search for the first fragment with that track_ID and time, in ticks of its track's timescale. No bytes came yet.
    pub fn new(alloc: Global, track: u32, time: u64) -> Search
        ensures looks { Looks result [] }
        ensures track { result.track ≡ track }
        ensures time { result.time ≡ time }
    {
        Search {
            track,
            time,
            skim: Skim::new(alloc),
            count: 0,
            found: None,
            refusal: None,
        }
    }

    // Counts the items of one piece on, and keeps the fragment sought, if it is the first one.
    fn note(&mut self, items: Items)
        requires { self.old.count + length items < 2 ^ 32 }
        ensures asked { (self.new.track ≡ self.old.track) × (self.new.time ≡ self.old.time) }
        ensures rest { (self.new.skim ≡ self.old.skim) × (self.new.refusal ≡ self.old.refusal) }
        ensures count { self.new.count ≡ self.old.count + fragments_in items }
        ensures found { self.new.found ≡ option_or self.old.found (first_from (self.old.count + 1) self.old.track self.old.time items) }
    {
        let tally = seek(&items, self.count, self.track, self.time);
        self.count = tally.count;
        if self.found.is_none() {
            self.found = found_at(items, tally.hit);
        }
    }

    // Passes over the `mdat` that was begun, where it is that of a fragment that isn't sought: only its place counts.
    fn pass_other(&mut self)
        requires partial { IsPartial self.old.skim.kept }
        requires few { self.old.count + 1 < 2 ^ 32 }
        ensures asked { (self.new.track ≡ self.old.track) × (self.new.time ≡ self.old.time) × (self.new.refusal ≡ self.old.refusal) }
        ensures looks { (b : List ℕ) → IsLooking self.old b → LooksBy None self.new b }
    {
        if self.skim.pass(self.track, self.time) {
            self.count += 1;
        }
    }

    // Takes a part of a piece.
    fn take_part(&mut self, piece: &[u8]) -> Result<(), NoMemory>
        requires looks { (b : List ℕ) × Looks self.old b × (length b + length piece.now ≤ input_most) }
        requires within { self.old.refusal ≡ None → 0 < self.old.skim.kept.skip → length piece.now ≤ self.old.skim.kept.skip }
        ensures looks { (b : List ℕ) → Looks self.old b → OnOk result (Looks self.new (b ++ piece.now)) }
        ensures asked { (self.new.track ≡ self.old.track) × (self.new.time ≡ self.old.time) }
    {
        front();
        items_are_no_more_than_bytes();
        if self.refusal.is_some() {
            return Ok(());
        }
        if 0 < self.skim.kept.skip {
            self.skim.skip(piece.len() as u64);
            return Ok(());
        }
        match self.skim.feed(piece) {
            Ok(items) => {
                self.note(items);
                self.pass_other();
            }
            Err(StepFault::Refused(refusal)) => self.refusal = Some(refusal),
            Err(StepFault::NoMemory) => return Err(NoMemory),
        }
        Ok(())
    }

    // How many bytes are taken at once.
    fn due(&self) -> u64
        requires { (b : List ℕ) × Looks self.now b }
        ensures some { 0 < result }
        ensures within { self.now.refusal ≡ None → 0 < self.now.skim.kept.skip → result ≤ self.now.skim.kept.skip }
    {
        if self.refusal.is_some() {
            u64::MAX
        } else {
            self.skim.due()
        }
    }

    /// Takes the next piece. It hands it on in parts that complete one item at the most, so that no more than one fragment
    /// beside the one found is held.
    pub fn take(&mut self, piece: &[u8]) -> Result<(), NoMemory>
        requires { (b : List ℕ) × Looks self.old b × (length b + length piece.now ≤ input_most) }
        ensures looks { (b : List ℕ) → Looks self.old b → OnOk result (Looks self.new (b ++ piece.now)) }
        ensures asked { (self.new.track ≡ self.old.track) × (self.new.time ≡ self.old.time) }
    {
        let mut done = 0;
        while done < piece.len() {
            let rest = &piece[done..];
            let count = self.due().min(rest.len() as u64) as usize;
            self.take_part(&rest[..count])?;
            done += count;
        }
        Ok(())
    }

    // Why the bytes are no whole push, if they are none.
    fn refusal_at_end(&mut self) -> Option<Refusal>
        requires { (b : List ℕ) × Looks self.old b }
        ensures refusal { (b : List ℕ) → Looks self.old b → result ≡ body_end true b }
        ensures asked { (self.new.track ≡ self.old.track) × (self.new.time ≡ self.old.time) × (self.new.found ≡ self.old.found)
            × (self.new.count ≡ self.old.count) }
    {
        if self.refusal.is_some() {
            return self.refusal.take();
        }
        self.skim.end()
    }

    // What the bytes come to, which are all.
    fn picked(&mut self, alloc: Global) -> Result<Picked, NoMemory>
        requires { (b : List ℕ) × Looks self.old b }
        ensures { (b : List ℕ) → Looks self.old b → IfOk result (λ answer. IsDue self.old.track self.old.time b answer) }
    {
        items_are_valid();
        if let Some(refusal) = self.refusal_at_end() {
            return Ok(Picked::Refused(refusal_line(alloc, &refusal)?));
        }
        match &self.found {
            Some((place, fragment)) => {
                let text = put_fragment(alloc, *place, self.track, fragment, &[])?;
                Ok(Picked::Found(text))
            }
            None => Ok(Picked::NotKept),
        }
    }

    /// What the bytes come to, which are all.
    pub fn answer(mut self, alloc: Global) -> Result<Picked, NoMemory>
        requires { (b : List ℕ) × Looks self b }
        ensures { (b : List ℕ) → Looks self b → IfOk result (λ answer. IsDue self.track self.time b answer) }
    {
        self.picked(alloc)
    }
}
