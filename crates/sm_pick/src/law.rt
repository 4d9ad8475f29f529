//! A law of the command.
ghost use Rattle.std.specs.Prelude.{◌≡◌, ℕ, List};
ghost use Rattle.sm_pick.specs.declared.picked.Picked.{Picked};
ghost use Rattle.sm_pick.specs.Due.{IsDue};

/// One answer is due to an input that was read, so the status and every byte of the output are a function of the words
/// and the input, where no end fails and memory lasts.
pub fn one_answer_is_due()
    ensures { (track time : ℕ) (input : List ℕ) (a b : Picked) → IsDue track time input a → IsDue track time input b → a ≡ b }
{}
