//! The body of a push that is open.
ghost use Rattle.std.specs.Prelude.{is_some, ◌≡◌, ◌<◌, ◌≤◌, [], ◌∷◌, true, List, ℕ, Some, None, IsTrue, map};
ghost use Rattle.sm_conn.specs.Parts.{byte, ended};
ghost use Rattle.sm_wire.specs.declared.item.WireItem.TheVariants.{End};
ghost use Rattle.sm_serve.specs.Pushes.{GivesValid};
ghost use Rattle.sm_serve.specs.Resting.{PlaceIs, SameConn};
ghost use Rattle.sm_serve.specs.Giving.{FedPush, EndedPush};
ghost use Rattle.sm_serve.specs.Steps.{MayAct, Leaves, TakesItems, TakesParts};

use crate::OpenPush;
use crate::handler::Handler;
use crate::item::starve;
use crate::still::Still;
use sm_model::{Act, Items};
use sm_push::PushFault;
use sm_site::Site;
use sm_wire::law::wire_of_front;

// Feeds the push that is open.
fn feed(push: &mut Option<OpenPush>, bytes: &[u8]) -> Result<Items, PushFault>
    requires open { is_some push.old ≡ true }
    ensures fed { (b : List ℕ) → PlaceIs push.old (Some b) → FedPush b bytes.now push.new result }
    ensures valid { GivesValid result }
    ensures open { is_some push.new ≡ true }
{
    match push {
        Some(push) => push.feed(bytes),
        None => unreachable!(),
    }
}

// Says whether the push that is open may end here.
fn end(push: &mut Option<OpenPush>) -> Result<(), PushFault>
    ensures { (b : List ℕ) → PlaceIs push.old (Some b) → EndedPush b result }
{
    match push {
        Some(push) => push.end(),
        None => Err(PushFault::Failed),
    }
}

// How many of the next bytes are fed at once: so many that one item comes of them at the most, and one at least.
fn due(push: &Option<OpenPush>, count: usize) -> usize
    requires some { 0 < count }
    ensures some { 0 < result }
    ensures most { result ≤ count }
{
    match push {
        Some(push) => push.due().min(count as u64) as usize,
        None => count,
    }
}

impl<S: Site> Handler<'_, S> {
    // Takes some of the bytes of a part.
    fn take_chunk(&mut self, bytes: &[u8]) -> Still
        requires may { MayAct S.Disk.seen self.old }
        requires open { is_some self.old.live.now.push ≡ true }
        ensures goes_on { (b : List ℕ) → TakesParts S.Disk.seen (Some b) (map (λ x. byte x) bytes.now) self.old self.new result }
        ensures leaves { Leaves S.Disk.seen SameConn self.old self.new result }
        ensures push { result ≡ Still.Open → is_some self.new.live.now.push ≡ true }
    {
        wire_of_front();
        match feed(&mut self.live.push, bytes) {
            Ok(items) => self.take_items(items.into_vec()),
            Err(PushFault::Refused { before, refusal }) => {
                match self.take_items(before.into_vec()) {
                    Still::Open => self.act_on(&Act::Refuse(refusal), true),
                    Still::Closed => Still::Closed,
                }
            }
            Err(PushFault::Failed) => starve(self.site, self.live.number),
            Err(PushFault::NoMemory) => starve(self.site, self.live.number),
        }
    }

    // Takes bytes of the push that is open. They are handed on in parts that complete one item at the most, so that no more is held at
    // once than one item and what the push holds.
    pub(crate) fn take_body(&mut self, bytes: &[u8]) -> Still
        requires may { MayAct S.Disk.seen self.old }
        requires open { is_some self.old.live.now.push ≡ true }
        ensures goes_on { (b : List ℕ) → TakesParts S.Disk.seen (Some b) (map (λ x. byte x) bytes.now) self.old self.new result }
        ensures leaves { Leaves S.Disk.seen SameConn self.old self.new result }
        ensures push { result ≡ Still.Open → is_some self.new.live.now.push ≡ true }
    {
        let mut done = 0;
        while done < bytes.len() {
            let rest = &bytes[done..];
            let count = due(&self.live.push, rest.len());
            match self.take_chunk(&rest[..count]) {
                Still::Open => {}
                Still::Closed => return Still::Closed,
            }
            done += count;
        }
        Still::Open
    }

    // Ends the push that is open.
    pub(crate) fn take_end(&mut self, close: bool) -> Still
        requires may { MayAct S.Disk.seen self.old }
        ensures goes_on { (b : List ℕ) → TakesParts S.Disk.seen (Some b) (ended close ∷ []) self.old self.new result }
        ensures leaves { Leaves S.Disk.seen SameConn self.old self.new result }
    {
        match end(&mut self.live.push) {
            Ok(()) => self.end_push(close),
            Err(PushFault::Refused { before: _, refusal }) => self.act_on(
                &Act::Refuse(refusal),
                true,
            ),
            Err(PushFault::Failed) => starve(self.site, self.live.number),
            Err(PushFault::NoMemory) => starve(self.site, self.live.number),
        }
    }

    // Acts on the end of a push: its counts are told, and set to 0.
    fn end_push(&mut self, close: bool) -> Still
        requires may { MayAct S.Disk.seen self.old }
        ensures goes_on { TakesItems S.Disk.seen (λ more. End close ∷ more) self.old self.new result }
        ensures closed { IsTrue close → result ≡ Still.Closed }
        ensures push { result ≡ Still.Open → self.new.live.now.push ≡ None }
        ensures leaves { Leaves S.Disk.seen SameConn self.old self.new result }
    {
        let act = Act::End {
            kept: self.live.kept,
            known: self.live.known,
        };
        match self.answer(&act, close) {
            Some(_) => {
                self.live.kept = 0;
                self.live.known = 0;
                self.live.push = None;
                Still::Open
            }
            None => Still::Closed,
        }
    }
}
