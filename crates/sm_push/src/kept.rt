//! What a push keeps of its bytes, and its steps.
ghost use Rattle.std.specs.Prelude.{◌≡◌, List, ℕ, [], ◌<◌, ◌≤◌, ◌+◌, ◌++◌, ◌⊎◌, min, length, IfOk, OnOk, OnErr, Err};
ghost use Rattle.std.specs.Option.{option_to_list};
ghost use Rattle.sm_push.specs.PushHeads.{decision};
ghost use Rattle.sm_push.specs.Heads.{FitsIn};
ghost use Rattle.sm_push.specs.Steps.{given_in, HoldsBoxes};
ghost use Rattle.sm_push.specs.Standing.{IsPartial, Advances, Settles, PieceGives, StaysInside, Grows, rest_of, kept_header};
ghost use Rattle.sm_push.specs.Held.{kept_bytes, lacking, missing_of};

use crate::decisions::decide;
use crate::fault::{StepFault, refuse};
use crate::held::Held;
use crate::state::{BoxDecision, HeaderStage, PushState};
use crate::step::{NewItem, pass, take};
use sm_model::Items;
use std::alloc::Global;

// No head of a box is shorter, in bytes.
const LEAST_HEAD: u64 = 8;

/// What a push keeps of its bytes.
#[derive(Debug, Drop)]
pub struct Kept {
    pub state: PushState,
    /// The bytes of a box that was begun, but for one that is passed over.
    pub held: Held,
    /// So many bytes still belong to a box that is passed over.
    pub skip: u64,
}

fn add(items: &mut Items, item: Option<NewItem>) -> Result<(), StepFault>
    ensures ok { OnOk result (items.new ≡ items.old ++ option_to_list (given_in item)) }
    ensures err { OnErr result (result ≡ Err StepFault.NoMemory) }
{
    if let Some(NewItem { item, id }) = item {
        items.push(item, id)?;
    }
    Ok(())
}

// How many of the next bytes belong to a head of which so many are held: all that each head has, and then one after the other.
fn head_wanted(held: u64, most: usize) -> usize
    requires some { 0 < most }
    ensures some { 0 < result }
    ensures most { result ≤ most }
    ensures head { (result ≤ 1) ⊎ (held + result ≤ 8) }
{
    if held < LEAST_HEAD {
        let missing = LEAST_HEAD - held;
        missing.min(most as u64) as usize
    } else {
        1
    }
}

impl Kept {
    // Does with the bytes held what they allow.
    fn settle(&mut self, alloc: Global) -> Result<Option<NewItem>, StepFault>
        requires fits { FitsIn (length self.old.held) (decision self.old.state self.old.held) }
        requires here { self.old.skip ≡ 0 }
        requires boxes { HoldsBoxes self.old.state }
        ensures settles { Settles self.old self.new result }
        ensures partial { OnOk result (IsPartial self.new) }
        ensures grows { OnOk result (Grows self.old self.new) }
    {
        match decide(&self.state, self.held.as_slice()) {
            BoxDecision::Wait => Ok(None),
            BoxDecision::Refuse(cause) => Err(refuse(self.state.at, cause)),
            BoxDecision::Pass(size) => {
                self.skip = size - self.held.len();
                self.held.clear();
                pass(&mut self.state, size);
                Ok(None)
            }
            BoxDecision::Take(sort, size) => {
                if self.held.len() < size {
                    self.held.reserve(alloc, size as usize)?;
                    return Ok(None);
                }
                let whole = self.held.take(alloc);
                take(alloc, &mut self.state, sort, whole)
            }
        }
    }

    // Takes some bytes of a piece, each of them once. Answers how many, and the item that they complete.
    fn advance(
        &mut self,
        alloc: Global,
        piece: &[u8],
    ) -> Result<(usize, Option<NewItem>), StepFault>
        requires some { 0 < length piece.now }
        requires partial { IsPartial self.old }
        ensures moves { IfOk result (λ r. (0 < r.0) × (r.0 ≤ length piece.now)) }
        ensures advances { Advances self.old self.new piece.now result }
        ensures partial { OnOk result (IsPartial self.new) }
        ensures grows { OnOk result (Grows self.old self.new) }
    {
        if 0 < self.skip {
            let count = self.skip.min(piece.len() as u64);
            self.skip -= count;
            return Ok((count as usize, None));
        }
        let count = self.wanted(piece.len());
        self.held.extend(&piece[..count])?;
        let item = self.settle(alloc)?;
        Ok((count, item))
    }

    // How many of the next bytes are held before anything is decided.
    fn wanted(&self, most: usize) -> usize
        requires some { 0 < most }
        requires partial { IsPartial self.now }
        ensures some { 0 < result }
        ensures most { result ≤ most }
        ensures least { min (lacking (length self.now.held) (decision self.now.state self.now.held)) most ≤ result }
        ensures fits { StaysInside self.now result }
    {
        match decide(&self.state, self.held.as_slice()) {
            BoxDecision::Take(_, size) => {
                let missing = size - self.held.len();
                missing.min(most as u64) as usize
            }
            _ => head_wanted(self.held.len(), most),
        }
    }

    /// Takes a whole piece, and adds the items that it completes.
    pub fn take_piece(
        &mut self,
        alloc: Global,
        items: &mut Items,
        piece: &[u8],
    ) -> Result<(), StepFault>
        requires partial { IsPartial self.old }
        requires none { items.old ≡ [] }
        ensures partial { OnOk result (IsPartial self.new) }
        ensures gives { PieceGives self.old self.new piece.now items.new result }
    {
        let mut done = 0;
        while done < piece.len() {
            let (count, item) = self.advance(alloc, &piece[done..])?;
            add(items, item)?;
            done += count;
        }
        Ok(())
    }

    /// So many further bytes at the most complete no box but the one that stands here.
    pub fn due(&self) -> u64
        requires partial { IsPartial self.now }
        ensures some { 0 < result }
        ensures missing { missing_of self.now ≤ result }
        ensures few { (piece : List ℕ) → length piece ≤ result → length (rest_of self.now piece).items ≤ 1 }
    {
        if 0 < self.skip {
            return self.skip;
        }
        self.wanted(usize::MAX) as u64
    }

    /// Lets go of all bytes; the header stays, where one was read.
    pub fn clear(&mut self, alloc: Global)
        ensures none { kept_bytes self.new ≡ 0 }
        ensures header { kept_header self.new ≡ kept_header self.old }
    {
        self.held = Held::new(alloc);
        self.state.moof = None;
        if let HeaderStage::Gathering {
            manifest: _,
            moov: _,
        } = &self.state.stage
        {
            self.state.stage = HeaderStage::Gathering {
                manifest: None,
                moov: None,
            };
        }
    }

    /// Whether the bytes end inside a box, or behind a `moof`.
    pub fn is_inside(&self) -> bool
        requires partial { IsPartial self.now }
        ensures { result ≡ (rest_of self.now []).inside }
    {
        if 0 < self.skip {
            return true;
        }
        if 0 < self.held.len() {
            return true;
        }
        self.state.moof.is_some()
    }
}
