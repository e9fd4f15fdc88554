// The law of texts, the contract of a function with nothing to do: what stands on texts goes by it.

ghost use Rattle.std.specs.Prelude.{◌≡◌, ◌⊎◌, ℕ, List};
ghost use Rattle.te_script.specs.Scripts.{Program};
ghost use Rattle.te_reader.specs.declared.fault.ScriptFault.{ScriptFault};
ghost use Rattle.te_reader.specs.Places.{HasFault};
ghost use Rattle.te_reader.specs.Text.{Text};

/// Bytes are a text of a script or have a fault, never both, and never two faults.
#[doc(hidden)]
pub fn texts_are_decided()
    ensures either { (bytes : List ℕ) → ((p : Program) × Text bytes p) ⊎ ((fault : ScriptFault) × HasFault bytes fault) }
    ensures apart { (bytes : List ℕ) (p : Program) (fault : ScriptFault) → Text bytes p → HasFault bytes fault → ⊥ }
    ensures one { (bytes : List ℕ) (fault other : ScriptFault) → HasFault bytes fault → HasFault bytes other → fault ≡ other }
{}
