//! The policies of a play.
ghost use Rattle.std.specs.Prelude.{◌≡◌, ◌<◌, [], true, false, length, vec_len, slice_index_or, remove};

use sm_policy::{Heard, Policy};

/// The policy that acts, and those after it.
#[derive(Drop)]
pub struct Policies {
    pub acting: Box<dyn Policy>,
    pub rest: Vec<Box<dyn Policy>>,
}

impl Policies {
    ghost use Rattle.sm_client.specs.Turns.{Continues, settle, fresh, meant};

    /// The first of the list acts, even if it has retired.
    pub fn new(mut policies: Vec<Box<dyn Policy>>) -> Policies
        requires { 0 < vec_len policies }
        ensures first { result.acting ≡ slice_index_or policies.items 0 result.acting }
        ensures rest { result.rest.items ≡ remove policies.items 0 }
    {
        let acting = policies.remove(0);
        Policies {
            acting,
            rest: policies,
        }
    }

    /// The place in the ladder to ask for, by the one that acts.
    pub fn choose(&self, ladder: &[u32], ahead: u64) -> usize
        requires { 0 < length ladder.now }
        ensures pick { result ≡ pick_after self.now.acting [] ladder.now ahead }
        ensures within { result < length ladder.now }
    {
        self.acting.choose(ladder, ahead)
    }

    /// The one that acts takes in what came of a request.
    pub fn hear(&mut self, heard: Heard)
        ensures heard { Continues (meant pick_after retired_after) self.old.acting self.new.acting heard }
        ensures rest { self.new.rest.items ≡ self.old.rest.items }
    {
        self.acting.hear(heard);
    }

    // Whether the one that acts has retired, and isn't the last.
    fn is_over(&self) -> bool
        ensures yes { result ≡ true → (retired_after self.now.acting [] ≡ true) × (0 < length self.now.rest.items) }
        ensures no { result ≡ false → retired_after self.now.acting [] ≡ true → self.now.rest.items ≡ [] }
    {
        if self.rest.is_empty() {
            return false;
        }
        self.acting.retired()
    }

    // The next one acts.
    fn take_over(&mut self)
        requires { 0 < length self.old.rest.items }
        ensures who { self.new.acting ≡ slice_index_or self.old.rest.items 0 self.new.acting }
        ensures rest { self.new.rest.items ≡ remove self.old.rest.items 0 }
        ensures fewer { vec_len self.new.rest < vec_len self.old.rest }
    {
        self.acting = self.rest.remove(0);
    }

    /// Until one acts that hasn't retired, or is the last, the next one acts.
    pub fn settle(&mut self)
        ensures { settle (meant pick_after retired_after) self.old.acting [] self.old.rest.items ≡ fresh self.new.acting self.new.rest.items }
    {
        while self.is_over() {
            self.take_over();
        }
    }
}
