//! Laws of targets. Each is the contract of a function that does nothing.
ghost use Rattle.std.specs.Prelude.{◌≡◌, ◌<◌, ℕ, List, All};
ghost use Rattle.sm_model.specs.declared.target.Target.{Target};
ghost use Rattle.sm_addr.specs.Paths.{IsPath};
ghost use Rattle.sm_addr.specs.Targets.{target_of};
ghost use Rattle.sm_addr.specs.Written.{target_written, IsNamed};

/// A target that was written is read as what it names.
pub fn written_is_read()
    ensures { (path : List ℕ) (t : Target) → IsPath path → All (λ b. b < 256) path → IsNamed t → target_of (target_written path t) ≡ t }
{}
