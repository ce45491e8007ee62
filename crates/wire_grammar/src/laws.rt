//! The laws of spelling and reading. Each is the contract of a function that does nothing.
ghost use Rattle.std.specs.Prelude.{◌≡◌, ◌⊎◌, ℕ, List, [], ◌++◌, length, drop, Ok, Err};
ghost use Rattle.crgc_bytes.specs.Place.{IsBytes};
ghost use Rattle.history_model.specs.declared.records.Bulletin.{Bulletin};
ghost use Rattle.wire_grammar.specs.declared.fault.WireFault.{WireFault};
ghost use Rattle.wire_grammar.specs.Spelling.{spelled};
ghost use Rattle.wire_grammar.specs.Reading.{reading};
ghost use Rattle.wire_grammar.specs.Spellable.{IsSpellable, BeginsWithSpelling};

/// The bulletin that is read has a spelling, which begins the bytes and has the length that is answered.
pub fn what_is_read_is_spelled_so()
    ensures { (bytes : List ℕ) (b : Bulletin) (n : ℕ) → IsBytes bytes → reading bytes ≡ Ok (b, n)
        → IsSpellable b × (bytes ≡ spelled b ++ drop n bytes) × (n ≡ length (spelled b)) }
{}

/// Each spelling is read, whatever follows it.
pub fn each_spelling_is_read()
    ensures { (b : Bulletin) (rest : List ℕ) → IsSpellable b → reading (spelled b ++ rest) ≡ Ok (b, length (spelled b)) }
{}

/// A bulletin is determined by its spelling, and no spelling is a proper prefix of another.
pub fn no_spelling_begins_another()
    ensures { (a b : Bulletin) (rest : List ℕ) → IsSpellable a → IsSpellable b → spelled a ++ rest ≡ spelled b
        → (a ≡ b) × (rest ≡ []) }
{}

/// Bytes begin with a spelling or have a first fault, and not both.
pub fn a_spelling_or_a_first_fault()
    ensures one { (bytes : List ℕ) → IsBytes bytes → BeginsWithSpelling bytes ⊎ ((f : WireFault) × (reading bytes ≡ Err f)) }
    ensures not_both { (bytes : List ℕ) (f : WireFault) → BeginsWithSpelling bytes → reading bytes ≡ Err f → ⊥ }
{}
