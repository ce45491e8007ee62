//! The top call: words, source and sink in, a status out.
ghost use Rattle.std.specs.Prelude.{◌≡◌, ◌≤◌, IfOk, IfErr, MatchOption, map, string_bytes};
ghost use Rattle.command_words.specs.Commands.{Spells, WantsWorkers};
ghost use Rattle.command_words.specs.declared.command.Command.TheVariants.{Run};
ghost use Rattle.cluster_top.specs.Outcome.{CameTo, IsOutcome, IsWritten};
ghost use Rattle.cluster_top.specs.Complete.{EndsWell};
ghost use Rattle.cluster_top.specs.Refusals.{line_for, status_of};
ghost use Rattle.cluster_top.specs.WorkersOutcome.{IsTopOutcome, IsWorkersOutcome};

use crate::generating::generated;
use crate::playing::played;
use crate::refusal::Refusal;
use crate::running::ran;
use crate::status::Status;
use crate::working::{Working, worked};
use command_words::{Command, read_command};
use crgc_io::{Gate, Sink, Source, WriteFault, write_all};
use history_model::History;
use std::alloc::Global;
use std::sync::Wait;
use std::thread::Threads;
use std::time::Clock;

/// All that the program does: it reads the words and the source, does what they ask, and writes to the sink. Where the words ask
/// for worker threads, these run the script, the gate is told of each turn as it begins, and the history that was reached is
/// kept; the call may wait then. Else it does what `plain_top` does, the gate is not called, and `kept` stays as it is. What a cluster
/// took without worker threads is not given back: a program ends with this call.
pub fn crgc_top<S: Source, K: Sink, G: Gate + Sync, R: Threads + Wait + Clock + Sync>(
    rt: &R,
    alloc: Global,
    words: &[String],
    source: &mut S,
    sink: &mut K,
    gate: &G,
    kept: &mut Option<History>,
) -> Status
    ensures outcome { IsTopOutcome S.left S.given S.ended S.faults K.held K.taken K.faults (map string_bytes words.now)
        source.old source.new sink.old sink.new kept.old kept.new result }
    ensures complete { EndsWell S.left S.given S.faults K.faults (map string_bytes words.now)
        source.old source.new sink.old sink.new result }
    ensures reads_never_fall { S.faults source.old ≤ S.faults source.new }
    ensures writes_never_fall { K.faults sink.old ≤ K.faults sink.new }
{
    match working_of(words) {
        Some(working) => working_top(rt, alloc, source, sink, working, gate, kept),
        None => plain_top(alloc, words, source, sink),
    }
}

// What `crgc_top` does where worker threads run the script.
fn working_top<S: Source, K: Sink, G: Gate + Sync, R: Threads + Wait + Clock + Sync>(
    rt: &R,
    alloc: Global,
    source: &mut S,
    sink: &mut K,
    working: Working,
    gate: &G,
    kept: &mut Option<History>,
) -> Status
    requires { 1 ≤ working.workers }
    ensures outcome { IsWorkersOutcome S.left S.given S.ended S.faults K.held K.taken K.faults working.brief
        source.old source.new sink.old sink.new kept.old kept.new result }
    ensures reads_never_fall { S.faults source.old ≤ S.faults source.new }
    ensures writes_never_fall { K.faults sink.old ≤ K.faults sink.new }
{
    let answer = worked(rt, alloc, source, working, gate, kept);
    write_answer(sink, answer)
}

/// What `crgc_top` does where it needs no threads. It returns on every input, and what the cluster took is not given back.
pub fn plain_top<S: Source, K: Sink>(
    alloc: Global,
    words: &[String],
    source: &mut S,
    sink: &mut K,
) -> Status
    requires { ¬ WantsWorkers (map string_bytes words.now) }
    ensures outcome { IsOutcome S.left S.given S.ended S.faults K.held K.taken K.faults (map string_bytes words.now)
        source.old source.new sink.old sink.new result }
    ensures complete { EndsWell S.left S.given S.faults K.faults (map string_bytes words.now)
        source.old source.new sink.old sink.new result }
    ensures reads_never_fall { S.faults source.old ≤ S.faults source.new }
    ensures writes_never_fall { K.faults sink.old ≤ K.faults sink.new }
{
    let answer = answer(alloc, words, source);
    write_answer(sink, answer)
}

// What the words ask for: the text that is to be written, or why there is none.
fn answer<S: Source>(alloc: Global, words: &[String], source: &mut S) -> Result<Vec<u8>, Refusal>
    requires { ¬ WantsWorkers (map string_bytes words.now) }
    ensures text { IfOk result (λ v. CameTo S.left S.given S.ended S.faults (map string_bytes words.now)
        source.old source.new Status.Done v.items) }
    ensures refusal { IfErr result (λ r. CameTo S.left S.given S.ended S.faults (map string_bytes words.now)
        source.old source.new (status_of r) (line_for r)) }
    ensures never_falls { S.faults source.old ≤ S.faults source.new }
{
    match read_command(words) {
        Some(Command::Play { brief }) => played(alloc, source, brief),
        Some(Command::Gen { seed, size }) => generated(alloc, seed, size),
        Some(Command::Run { workers: 0, brief }) => ran(alloc, source, brief),
        Some(Command::Run { .. }) => unreachable!(),
        None => Err(Refusal::Usage),
    }
}

// How the words ask for a run with worker threads; None exactly where they do not.
fn working_of(words: &[String]) -> Option<Working>
    ensures { MatchOption result (¬ WantsWorkers (map string_bytes words.now))
        (λ w. Spells (map string_bytes words.now) (Run w.workers w.brief) × (1 ≤ w.workers)) }
{
    match read_command(words) {
        Some(Command::Run { workers: 0, .. }) => None,
        Some(Command::Run { workers, brief }) => Some(Working { workers, brief }),
        Some(_) => None,
        None => None,
    }
}

// Writes the text, or the line of the refusal, and answers the status.
fn write_answer<K: Sink>(sink: &mut K, answer: Result<Vec<u8>, Refusal>) -> Status
    ensures text { IfOk answer (λ v. IsWritten K.held K.taken K.faults sink.old sink.new Status.Done v.items result) }
    ensures refusal { IfErr answer (λ r. IsWritten K.held K.taken K.faults sink.old sink.new (status_of r) (line_for r) result) }
    ensures never_falls { K.faults sink.old ≤ K.faults sink.new }
{
    match answer {
        Ok(text) => write_text(sink, text.as_slice()),
        Err(refusal) => write_refusal(sink, refusal),
    }
}

// Writes the text, and answers that it was done, or that a write failed.
fn write_text<K: Sink>(sink: &mut K, text: &[u8]) -> Status
    ensures written { IsWritten K.held K.taken K.faults sink.old sink.new Status.Done text.now result }
    ensures never_falls { K.faults sink.old ≤ K.faults sink.new }
{
    match write_all(sink, text) {
        Ok(()) => Status::Done,
        Err(WriteFault { written }) => Status::WriteFault { written },
    }
}

// Writes the line of the refusal, and answers its status, or that a write failed.
fn write_refusal<K: Sink>(sink: &mut K, refusal: Refusal) -> Status
    ensures written { IsWritten K.held K.taken K.faults sink.old sink.new (status_of refusal) (line_for refusal) result }
    ensures never_falls { K.faults sink.old ≤ K.faults sink.new }
{
    match write_all(sink, refusal.line()) {
        Ok(()) => refusal.into_status(),
        Err(WriteFault { written }) => Status::WriteFault { written },
    }
}
