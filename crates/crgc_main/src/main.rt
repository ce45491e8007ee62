//! The program `crgc`: the top call over the words of the command line, standard input and standard output.
#![tactic(auto)]

ghost use Rattle.std.specs.Prelude.{◌≡◌, [], None, Option, map, string_bytes};
ghost use Rattle.history_model.specs.Story.{Story};
ghost use Rattle.cluster_top.specs.Complete.{EndsWell};
ghost use Rattle.cluster_top.specs.WorkersOutcome.{IsTopOutcome};
ghost use Rattle.crgc_io.specs.Edges.{sink_faults, sink_inner, sink_taken, source_ended, source_faults, source_given, source_inner};

use cluster_top::{Status, crgc_top};
use crgc_ids::NoMemory;
use crgc_io::{QuietGate, StdSink, StdSource};
use std::alloc::Global;
use std::env;
use std::env::Env;
use std::io::{ErrorKind, Read, Write};
use std::process::ExitCode;
use std::sync::Wait;
use std::thread::Threads;
use std::time::Clock;

fn main(rt: HostRuntime) -> ExitCode {
    let mut source = StdSource::new(rt.stdin());
    let mut sink = StdSink::new(rt.stdout());
    let status = match words(&rt, rt.alloc()) {
        Ok(words) => run(&rt, rt.alloc(), words.as_slice(), &mut source, &mut sink),
        Err(NoMemory) => Status::NoMemory,
    };
    ExitCode::from(status.exit_number())
}

/// The program over any reader and writer, of which nothing was moved before: what the writes took is what the words ask for,
/// made of what the reads gave. The edges record both.
fn run<I: Read, O: Write, R: Threads + Wait + Clock + Sync>(
    rt: &R,
    alloc: Global,
    words: &[String],
    source: &mut StdSource<I>,
    sink: &mut StdSink<O>,
) -> Status
    requires given { source_given source.old ≡ [] }
    requires taken { sink_taken sink.old ≡ [] }
    ensures outcome { (kept : Option Story) × IsTopOutcome (λ s. I.remaining (source_inner s)) source_given source_ended source_faults
        (λ k. O.contents (sink_inner k)) sink_taken sink_faults (map string_bytes words.now)
        source.old source.new sink.old sink.new None kept result }
    ensures complete { EndsWell (λ s. I.remaining (source_inner s)) source_given source_faults sink_faults (map string_bytes words.now)
        source.old source.new sink.old sink.new result }
{
    let mut kept = None;
    crgc_top(rt, alloc, words, source, sink, &QuietGate, &mut kept)
}

// The words after the program's name; none where one of them is no text, since no words are no command either.
fn words<R: Env + AllocGlobal>(rt: &R, alloc: Global) -> Result<Vec<String>, NoMemory> {
    let mut words = Vec::new(alloc);
    let all = match env::args(rt) {
        Ok(all) => all,
        Err(error) if error.kind() == ErrorKind::InvalidData => return Ok(words),
        Err(_) => return Err(NoMemory),
    };
    for word in all.skip(1) {
        if words.push(word).is_err() {
            return Err(NoMemory);
        }
    }
    Ok(words)
}

#[cfg(test)]
mod tests;
