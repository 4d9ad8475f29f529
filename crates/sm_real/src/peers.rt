// The connections of a link, in the order of their numbers.
ghost use Rattle.std.specs.Prelude.{◌≡◌, ◌⊎◌, ◌≤◌, ◌<◌, ◌++◌, length, vec_len, true, false, IfOk, IfSome, IfNone, OnOk, slice_index_or};
ghost use Rattle.sm_real.specs.Found.{FitsIn};
ghost use Rattle.sm_real.specs.Numbers.{GivesUp, IsAt, SentTo, Touches};
ghost use Rattle.sm_real.specs.Waiting.{waits, wait_in_all};
ghost use Rattle.sm_real.specs.declared.peer.Peer.{Peer};

use crate::Patience;
use crate::peer::{Found, Peer};
use mio::event::Event as Readiness;
use sm_site::Failed;
use std::alloc::{AllocError, Global};
use std::time::{Duration, Instant};

/// The peers, whose numbers rise, and no more of them than there may be.
#[derive(Drop)]
pub struct Peers {
    list: Vec<Peer>,
    most: usize,
    // The place of the one that was visited last, whose piece the loop mostly has in hand: it is looked for there first.
    last: usize,
    ghost few: { vec_len list ≤ most },
}

impl Peers {
    /// None, with room for as many as there may be.
    pub fn new(alloc: Global, most: usize) -> Result<Peers, AllocError>
        ensures { IfOk result (λ peers. peers.most ≡ most) }
    {
        Ok(Peers {
            list: Vec::with_capacity(alloc, most)?,
            most,
            last: 0,
        })
    }

    pub fn len(&self) -> usize
        ensures { result ≡ length self.now.list.items }
    {
        self.list.len()
    }

    pub fn is_full(&self) -> bool
        ensures { result ≡ false → length self.now.list.items < self.now.most }
    {
        self.list.len() >= self.most
    }

    /// How many bytes wait for all together.
    pub fn waiting(&self) -> usize {
        let mut waiting: usize = 0;
        for peer in &self.list {
            waiting = waiting.saturating_add(peer.waiting());
        }
        waiting
    }

    /// Whether there is something to do for the one at a place.
    pub fn is_due(&self, place: usize, now: Instant, patience: &Patience) -> bool {
        match self.list.get(place) {
            Some(peer) => peer.is_due(now, patience),
            None => false,
        }
    }

    /// One step of the one at a place: its number, and what was found. What was received from it stands in the buffer, and is no more
    /// than is soon done.
    pub fn visit(
        &mut self,
        place: usize,
        alloc: Global,
        buffer: &mut [u8],
        soon: usize,
        now: Instant,
        patience: &Patience,
    ) -> (u64, Found)
        requires there { place < length self.old.list.items }
        ensures fits { FitsIn (length buffer.new) result.1 }
        ensures soon { 256 ≤ soon → FitsIn soon result.1 }
        ensures whose { IsAt result.0 place self.new.list.items }
        ensures no_other { Touches result.0 self.old.list.items self.new.list.items }
    {
        self.last = place;
        let peer = &mut self.list[place];
        let found = peer.visit(alloc, buffer, soon, now, patience);
        (peer.number, found)
    }

    // The place of the one with a number.
    fn place(&self, number: u64) -> Option<usize>
        ensures { IfSome result (λ place. IsAt number place self.now.list.items) }
    {
        if let Some(peer) = self.list.get(self.last)
            && peer.number == number
        {
            return Some(self.last);
        }
        let found = self.list.binary_search_by(|peer| peer.number.cmp(&number));
        let place = found.ok()?;
        match self.list.get(place) {
            Some(peer) if peer.number == number => Some(place),
            _ => None,
        }
    }

    /// Takes note of what the system reports of the one with a number.
    pub fn note(&mut self, number: u64, readiness: &Readiness)
        ensures { (self.new.list.items ≡ self.old.list.items) ⊎ Touches number self.old.list.items self.new.list.items }
    {
        if let Some(place) = self.place(number) {
            self.list[place].note(readiness);
        }
    }

    /// A turn of the loop on a piece of the one with a number took so many milliseconds, where so many bytes were soon done whatever they
    /// are.
    pub fn weigh(&mut self, number: u64, took: u128, soon: usize)
        ensures { (self.new.list.items ≡ self.old.list.items) ⊎ Touches number self.old.list.items self.new.list.items }
    {
        if let Some(place) = self.place(number) {
            self.list[place].weigh(took, soon);
        }
    }

    /// Sends both parts to the one with a number.
    pub fn send(
        &mut self,
        alloc: Global,
        number: u64,
        head: &[u8],
        tail: &[u8],
        now: Instant,
    ) -> Result<(), Failed>
        ensures sent { OnOk result (SentTo number (head.now ++ tail.now) self.old.list.items self.new.list.items) }
        ensures no_other { (self.new.list.items ≡ self.old.list.items) ⊎ Touches number self.old.list.items self.new.list.items }
    {
        match self.place(number) {
            Some(place) => self.list[place].send(alloc, head, tail, now),
            None => Err(Failed),
        }
    }

    /// The loop is done with the one with a number.
    pub fn close(&mut self, number: u64)
        ensures { (self.new.list.items ≡ self.old.list.items) ⊎ Touches number self.old.list.items self.new.list.items }
    {
        if let Some(place) = self.place(number) {
            self.list[place].close();
        }
    }

    /// So much of the time doesn't count for any.
    pub fn forgive(&mut self, gap: Duration) {
        for place in 0..self.list.len() {
            if place < self.list.len() {
                self.list[place].forgive(gap);
            }
        }
    }

    /// Adds one, whose number is above all others.
    pub fn add(&mut self, peer: Peer) -> Result<(), AllocError>
        requires room { length self.old.list.items < self.old.most }
    {
        self.list.push(peer)?;
        Ok(())
    }

    /// Removes the one at a place.
    pub fn remove(&mut self, place: usize) {
        if place < self.list.len() {
            let _gone = self.list.remove(place);
        }
    }

    /// Gives up those for which most waits, until no more than so many bytes wait for all together.
    pub fn relieve(&mut self, alloc: Global, most: usize)
        ensures bounded { wait_in_all self.new.list.items ≤ most }
        ensures gives_up { GivesUp self.old.list.items self.new.list.items }
    {
        'relieving: while self.exceed(most) {
            self.give_up(alloc);
        }
    }

    // Whether more than so many bytes wait for all together.
    fn exceed(&self, most: usize) -> bool
        ensures over { result ≡ true → most < wait_in_all self.now.list.items }
        ensures within { result ≡ false → wait_in_all self.now.list.items ≤ most }
    {
        let mut left = most;
        for peer in &self.list {
            let waiting = peer.waiting();
            if waiting > left {
                return true;
            }
            left -= waiting;
        }
        false
    }

    // Gives up the one for which most waits.
    fn give_up(&mut self, alloc: Global)
        ensures fewer { 0 < wait_in_all self.old.list.items → wait_in_all self.new.list.items < wait_in_all self.old.list.items }
        ensures gives_up { GivesUp self.old.list.items self.new.list.items }
    {
        if let Some(place) = self.greatest() {
            self.list[place].lose(alloc);
        }
    }

    // The place of the one for which most waits, if anything does.
    fn greatest(&self) -> Option<usize>
        ensures found { IfSome result (λ i. (i < length self.now.list.items) × ((p : Peer) → 0 < waits (slice_index_or self.now.list.items i p))) }
        ensures none { IfNone result (wait_in_all self.now.list.items ≡ 0) }
    {
        let mut found = None;
        let mut most = 0;
        for (place, peer) in self.list.iter().enumerate() {
            let waiting = peer.waiting();
            if waiting > most {
                most = waiting;
                found = Some(place);
            }
        }
        found
    }
}
