//! A record of the bytes that calls moved, which only clauses read.
ghost use Rattle.std.specs.Prelude.{◌≡◌, ◌∷◌, ◌++◌, []};

use std::marker::Model;
use std::snapshot::Snapshot;

/// Bytes, one after another. It has no room for them: contracts see their list, and no code can.
#[derive(Drop)]
#[cycle(record)]
pub(crate) struct Record {
    before: Option<Snapshot<Record>>,
    last: Snapshot<u8>,
}

impl Model for Record {
    ghost use Rattle.std.specs.Prelude.{ℕ, List, length};
    ghost use Rattle.std.proofs.Common.{arith, length-append};
    ghost use Rattle.crgc_io.specs.Recorded.{recorded};

    ghost Value = { List ℕ };

    ghost view = { λ r. recorded r.before r.last };

    ghost size = { length };

    ghost size_decreases = { λ a h. Prim.grind (arith, length-append) };
}

impl Record {
    /// No byte.
    pub fn new() -> Record
        ensures { result ≡ [] }
    {
        Record {
            before: None,
            last: Snapshot::of(&0),
        }
    }

    /// The byte comes last.
    fn push(&mut self, byte: u8)
        ensures { self.new ≡ self.old ++ byte ∷ [] }
    {
        *self = Record {
            before: Some(Snapshot::of(self)),
            last: Snapshot::of(&byte),
        };
    }

    /// The bytes come last, in order. The loop moves nothing.
    pub fn append(&mut self, bytes: &[u8])
        ensures { self.new ≡ self.old ++ bytes.now }
    {
        for byte in bytes {
            self.push(*byte);
        }
    }
}
