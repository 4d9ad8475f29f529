//! What a policy is.
ghost use Rattle.std.specs.Prelude.{◌≡◌, ◌<◌, ℕ, Bool, List, [], ◌∷◌, length};
ghost use Rattle.sm_policy.specs.declared.policy.Heard.{Heard};

/// What came of a request for a fragment.
#[derive(Clone, Copy, Debug, PartialEq, Eq)]
pub enum Outcome {
    /// The fragment was read.
    Took {
        /// The length of the whole answer, its head with it.
        bytes: u64,
    },
    /// It wasn't, whatever the reason.
    Missed,
}

/// What a policy hears of one request.
#[derive(Clone, Copy, Debug, PartialEq, Eq)]
pub struct Heard {
    /// The place in the ladder that was asked for.
    pub level: usize,
    pub outcome: Outcome,
}

/// Who chooses the quality of each request, hears what came of it, and at some time wants to be relieved. A policy is known
/// by what it chooses, and by whether it has retired, once it has heard a list.
pub trait Policy: Drop {
    /// What it chooses once it has heard the list, at a ladder and a number of known starts.
    ghost pick_after: { Self → List Heard → List ℕ → ℕ → ℕ };

    /// Whether it has retired once it has heard the list.
    ghost retired_after: { Self → List Heard → Bool };

    /// The place in the ladder to ask for. The ladder has bitrates in bits a second, in ascending order; `ahead` is how many
    /// starts are known behind the one that is asked for.
    fn choose(&self, ladder: &[u32], ahead: u64) -> usize
        requires { 0 < length ladder.now }
        ensures pick { result ≡ pick_after self.now [] ladder.now ahead }
        ensures within { result < length ladder.now };

    /// Takes in what came of a request: from then on it is what it was once it had heard that first.
    fn hear(&mut self, heard: Heard)
        ensures picks { (hs : List Heard) (ladder : List ℕ) (ahead : ℕ) → pick_after self.new hs ladder ahead ≡ pick_after self.old (heard ∷ hs) ladder ahead }
        ensures retires { (hs : List Heard) → retired_after self.new hs ≡ retired_after self.old (heard ∷ hs) };

    /// Whether another policy should take over.
    fn retired(&self) -> bool
        ensures { result ≡ retired_after self.now [] };
}
