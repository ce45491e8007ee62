//! What is true of numbers and their bytes.
ghost use Rattle.std.specs.Prelude.{◌≡◌, ℕ, List, ◌++◌, length};
ghost use Rattle.byteorder.specs.Endian.{big_bytes, big_number};
ghost use Rattle.crgc_bytes.specs.Place.{IsBytes};

/// The first bytes follow from their number, whatever stands after them.
pub fn bytes_follow_from_their_number()
    ensures { (k : ℕ) (xs rest : List ℕ) → length xs ≡ k → IsBytes xs → big_bytes k (big_number k (xs ++ rest)) ≡ xs }
{}
