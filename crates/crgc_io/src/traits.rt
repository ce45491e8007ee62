//! What reads and what writes.
ghost use Rattle.std.specs.Prelude.{◌≡◌, ℕ, Bool, true, ◌<◌, ◌≤◌, List, Option, length, IfOk, OnErr, OnOk, take};
ghost use Rattle.std.specs.Io.{ReadsAtMost, WritesAtMost};
ghost use Rattle.std.specs.Io.KnownBytes.{ReadConsumes, Appends, Keeps, WriteAppends};
ghost use Rattle.crgc_io.specs.Fault.{CountRose};
ghost use Rattle.crgc_io.specs.Taken.{Records};

/// A read or a write that moved nothing, and that its object counted as a fault.
#[derive(Clone, Copy, PartialEq, Eq, Debug)]
pub struct Failed;

/// Bytes that come in pieces, and a count of faults that never falls: it rises where a read fails, and stands where one
/// answers Ok.
pub trait Source {
    // the bytes that reads will give from here on, where it tells them
    ghost left: { Self → Option (List ℕ) };

    // the bytes that reads have given so far
    ghost given: { Self → List ℕ };

    // whether the last read gave none though it had room, which is the end
    ghost ended: { Self → Bool };

    // how many faults it has counted; the count stands still at 18,446,744,073,709,551,615
    ghost faults: { Self → ℕ };

    /// Reads into the front of `buf`, and answers how many bytes it gave. 0 for a `buf` that is not
    /// empty is the end.
    fn read(&mut self, buf: &mut [u8]) -> Result<usize, Failed>
        ensures bound { ReadsAtMost result buf.new }
        ensures bytes { ReadConsumes (left self.old) (left self.new) result buf.new }
        ensures record { Records (given self.old) (given self.new) result buf.new }
        ensures end { IfOk result (λ n. n ≡ 0 → 0 < length buf.new → ended self.new ≡ true) }
        ensures never_falls { faults self.old ≤ faults self.new }
        ensures failed { OnErr result (CountRose (faults self.old) (faults self.new)) }
        ensures stands { OnOk result (faults self.new ≡ faults self.old) };
}

/// Where bytes go in pieces, and a count of faults that never falls: it rises where a write fails, and stands where one
/// answers Ok.
pub trait Sink {
    // the bytes that it holds, where it tells them
    ghost held: { Self → Option (List ℕ) };

    // the bytes that writes have taken so far
    ghost taken: { Self → List ℕ };

    // how many faults it has counted; the count stands still at 18,446,744,073,709,551,615
    ghost faults: { Self → ℕ };

    /// Takes bytes from the front of `piece`, and answers how many: at least one, where `piece` is
    /// not empty.
    fn write(&mut self, piece: &[u8]) -> Result<usize, Failed>
        ensures bound { WritesAtMost result piece.now }
        ensures progress { IfOk result (λ n. 0 < length piece.now → 0 < n) }
        ensures bytes { WriteAppends (held self.old) (held self.new) result piece.now }
        ensures record { Records (taken self.old) (taken self.new) result piece.now }
        ensures never_falls { faults self.old ≤ faults self.new }
        ensures failed { OnErr result (CountRose (faults self.old) (faults self.new)) }
        ensures stands { OnOk result (faults self.new ≡ faults self.old) };
}
