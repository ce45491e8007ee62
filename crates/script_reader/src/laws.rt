//! Laws of the definitions. Each function does nothing, and its contract is the law.
ghost use Rattle.std.specs.Prelude.{◌≡◌, ◌⊎◌, ℕ, List, Result, Ok, Err};
ghost use Rattle.script_reader.specs.declared.fault.ScriptRead.{ScriptRead as Reads};
ghost use Rattle.script_reader.specs.declared.fault.ScriptRead.TheVariants.{NoMemory};
ghost use Rattle.script_reader.specs.Scripts.{Answers, StandsFor};
ghost use Rattle.script_reader.specs.Valid.{Scripted};

/// A text that stands for a script is read as that script, unless memory runs out: it stands for no other, and has no fault.
pub fn script_is_read()
    ensures { (bytes : List ℕ) (s : Scripted) (r : Result Scripted Reads) → StandsFor bytes s → Answers bytes r
        → (r ≡ Ok s) ⊎ (r ≡ Err NoMemory) }
{}
