//! The program's edges: std's readers and writers as a source and a sink.
ghost use Rattle.std.specs.Prelude.{◌≡◌, ◌<◌, ◌≤◌, ◌⊎◌, ◌↔◌, [], true, false, Ok, IfOk, OnErr, OnOk, MatchResult, IsErr, IsTrue, IsFalse, if◌then◌else◌, is_err, length};
ghost use Rattle.std.specs.Io.{ReadsAtMost, WritesAtMost};
ghost use Rattle.std.specs.Io.KnownBytes.{ReadConsumes, WriteAppends};
ghost use Rattle.crgc_io.specs.Edges.{source_inner, source_given, source_ended, source_faults, sink_inner, sink_taken, sink_faults};
ghost use Rattle.crgc_io.specs.Fault.{CountRose, raised};
ghost use Rattle.crgc_io.specs.Taken.{Records};

use crate::record::Record;
use crate::traits::{Failed, Sink, Source};
use std::io;
use std::io::{Read, Write};

/// A source over a reader of std. Each error of a read counts as a fault. It records the bytes that reads gave, and whether
/// the last one was at the end; it tells the bytes left where the reader's contract tells them.
#[derive(Drop)]
pub struct StdSource<R> {
    inner: R,
    faults: u64,
    ended: bool,
    given: Record,
}

impl<R: Read> StdSource<R> {
    /// The source over this reader, which has given nothing, with no fault counted.
    pub fn new(inner: R) -> StdSource<R>
        ensures inner { source_inner result ≡ inner }
        ensures given { source_given result ≡ [] }
        ensures ended { source_ended result ≡ false }
        ensures faults { source_faults result ≡ 0 }
    {
        StdSource {
            inner,
            faults: 0,
            ended: false,
            given: Record::new(),
        }
    }
}

impl<R: Read> Source for StdSource<R> {
    ghost left = { λ s. R.remaining (source_inner s) };

    ghost given = { source_given };

    ghost ended = { source_ended };

    ghost faults = { source_faults };

    fn read(&mut self, buf: &mut [u8]) -> Result<usize, Failed>
        ensures bound { ReadsAtMost result buf.new }
        ensures bytes { ReadConsumes (R.remaining (source_inner self.old))
            (R.remaining (source_inner self.new)) result buf.new }
        ensures record { Records (source_given self.old) (source_given self.new) result buf.new }
        ensures end { IfOk result (λ n. n ≡ 0 → 0 < length buf.new → source_ended self.new ≡ true) }
        ensures no_end { source_ended self.new ≡ true → (result ≡ Ok 0) × (0 < length buf.new) }
        ensures never_falls { source_faults self.old ≤ source_faults self.new }
        ensures failed { OnErr result
            (CountRose (source_faults self.old) (source_faults self.new)) }
        ensures stands { OnOk result (source_faults self.new ≡ source_faults self.old) }
        ensures counts { let before = source_faults self.old in
            source_faults self.new ≡ (if is_err result then raised before else before) }
    {
        let answer = read_answer(self.inner.read(buf));
        count_fault(&mut self.faults, &answer);
        self.ended = is_end(&answer, buf.is_empty());
        append_moved(&mut self.given, &answer, buf);
        answer
    }
}

// What a read comes to: how many bytes it gave, also where those are none, and a fault at any error.
fn read_answer(answer: io::Result<usize>) -> Result<usize, Failed>
    ensures { MatchResult answer (λ n. result ≡ Ok n) (λ _. IsErr result) }
{
    match answer {
        Ok(n) => Ok(n),
        Err(_) => Err(Failed),
    }
}

/// A sink over a writer of std. Each error of a write counts as a fault, and so does a write that takes nothing of a piece
/// that is not empty. It records the bytes that writes took, and tells those held where the writer's contract tells them.
#[derive(Drop)]
pub struct StdSink<W> {
    inner: W,
    faults: u64,
    taken: Record,
}

impl<W: Write> StdSink<W> {
    /// The sink over this writer, which has taken nothing, with no fault counted.
    pub fn new(inner: W) -> StdSink<W>
        ensures inner { sink_inner result ≡ inner }
        ensures taken { sink_taken result ≡ [] }
        ensures faults { sink_faults result ≡ 0 }
    {
        StdSink {
            inner,
            faults: 0,
            taken: Record::new(),
        }
    }
}

impl<W: Write> Sink for StdSink<W> {
    ghost held = { λ s. W.contents (sink_inner s) };

    ghost taken = { sink_taken };

    ghost faults = { sink_faults };

    fn write(&mut self, piece: &[u8]) -> Result<usize, Failed>
        ensures bound { WritesAtMost result piece.now }
        ensures progress { IfOk result (λ n. 0 < length piece.now → 0 < n) }
        ensures bytes { WriteAppends (W.contents (sink_inner self.old))
            (W.contents (sink_inner self.new)) result piece.now }
        ensures record { Records (sink_taken self.old) (sink_taken self.new) result piece.now }
        ensures never_falls { sink_faults self.old ≤ sink_faults self.new }
        ensures failed { OnErr result (CountRose (sink_faults self.old) (sink_faults self.new)) }
        ensures stands { OnOk result (sink_faults self.new ≡ sink_faults self.old) }
        ensures counts { let before = sink_faults self.old in
            sink_faults self.new ≡ (if is_err result then raised before else before) }
    {
        let answer = write_answer(self.inner.write(piece), piece.is_empty());
        count_fault(&mut self.faults, &answer);
        append_moved(&mut self.taken, &answer, piece);
        answer
    }
}

// What a write comes to: how many bytes it took, and a fault at any error, and where it took none of a piece that is
// not empty.
fn write_answer(answer: io::Result<usize>, is_empty: bool) -> Result<usize, Failed>
    ensures taken { IfOk answer (λ n. (0 < n) ⊎ IsTrue is_empty → result ≡ Ok n) }
    ensures refused { IfOk answer (λ n. n ≡ 0 → IsFalse is_empty → IsErr result) }
    ensures failed { OnErr answer (IsErr result) }
{
    match answer {
        Ok(n) if n > 0 || is_empty => Ok(n),
        _ => Err(Failed),
    }
}

// One fault more where the answer is one.
fn count_fault(faults: &mut u64, answer: &Result<usize, Failed>)
    ensures counts { faults.new ≡ (if is_err answer.now then raised faults.old else faults.old) }
    ensures never_falls { faults.old ≤ faults.new }
{
    if answer.is_err() {
        *faults = faults.saturating_add(1);
    }
}

// Whether a read gave none though it had room.
fn is_end(answer: &Result<usize, Failed>, is_empty: bool) -> bool
    ensures { (result ≡ true) ↔ ((answer.now ≡ Ok 0) × IsFalse is_empty) }
{
    *answer == Ok(0) && !is_empty
}

// The bytes that the call moved come last in the record.
fn append_moved(moved: &mut Record, answer: &Result<usize, Failed>, bytes: &[u8])
    requires { IfOk answer.now (λ n. n ≤ length bytes.now) }
    ensures { Records moved.old moved.new answer.now bytes.now }
{
    if let Ok(n) = answer {
        moved.append(&bytes[..*n]);
    }
}
