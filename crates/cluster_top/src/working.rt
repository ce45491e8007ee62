//! The command `run` with worker threads.
ghost use Rattle.std.specs.Prelude.{◌≡◌, ◌≤◌, IfErr, IfOk};
ghost use Rattle.script_reader.specs.Valid.{IsScript};
ghost use Rattle.cluster_top.specs.Refusals.{IsRunHalt, IsWorkersRefusal, ReportsWorked, line_for, status_of};
ghost use Rattle.cluster_top.specs.WorkersOutcome.{IsWorkersReport, WorkersCameTo};
ghost use Rattle.cluster_top.specs.declared.status.Status.TheVariants as ends;

use crate::input::input;
use crate::refusal::Refusal;
use cluster_course::laws::a_legal_history_is_rightly_collected;
use crgc_io::{Gate, Source};
use history_model::History;
use history_model::live_laws::what_is_not_lost_is_delivered;
use run_model::round_laws::{
    a_round_stops_all_that_are_quiescent, each_node_that_is_up_sweeps,
    each_sweep_of_a_round_is_at_a_quiet_point,
};
use run_model::run_laws::{runs_are_legal, the_beginning_is_legal};
use script_reader::{Script, ScriptRead, read_script};
use script_workers::{Finished, WorkersFault, run};
use std::alloc::Global;
use std::sync::Wait;
use std::thread::Threads;
use std::time::Clock;

/// How a run is to be made: by how many workers, and whether its report is in brief.
#[derive(Clone, Copy, PartialEq, Eq, Debug)]
pub struct Working {
    pub workers: u32,
    pub brief: bool,
}

/// The report of the script that the source gives, run by workers, or why there is none. The history of the run is kept.
pub fn worked<S: Source, G: Gate + Sync, R: Threads + Wait + Clock + Sync>(
    rt: &R,
    alloc: Global,
    source: &mut S,
    working: Working,
    gate: &G,
    kept: &mut Option<History>,
) -> Result<Vec<u8>, Refusal>
    requires { 1 ≤ working.workers }
    ensures report { IfOk result (λ v. WorkersCameTo S.left S.given S.ended S.faults source.old source.new working.brief
        kept.old kept.new ends.Done v.items) }
    ensures refusal { IfErr result (λ r. WorkersCameTo S.left S.given S.ended S.faults source.old source.new working.brief
        kept.old kept.new (status_of r) (line_for r)) }
    ensures never_falls { S.faults source.old ≤ S.faults source.new }
{
    match input(alloc, source) {
        Ok(bytes) => report(rt, alloc, bytes.as_slice(), working, gate, kept),
        Err(refusal) => Err(refusal),
    }
}

/// The report of the script that the bytes stand for, or why there is none.
fn report<G: Gate + Sync, R: Threads + Wait + Clock + Sync>(
    rt: &R,
    alloc: Global,
    bytes: &[u8],
    working: Working,
    gate: &G,
    kept: &mut Option<History>,
) -> Result<Vec<u8>, Refusal>
    requires { 1 ≤ working.workers }
    ensures report { IfOk result (λ v. IsWorkersReport bytes.now working.brief v.items kept.new) }
    ensures refusal { IfErr result (λ r. IsWorkersRefusal bytes.now kept.old kept.new r) }
{
    the_beginning_is_legal();
    runs_are_legal();
    a_legal_history_is_rightly_collected();
    each_node_that_is_up_sweeps();
    what_is_not_lost_is_delivered();
    each_sweep_of_a_round_is_at_a_quiet_point();
    a_round_stops_all_that_are_quiescent();
    match read_script(alloc, bytes) {
        Ok(script) => finished(rt, alloc, script, working, gate, kept),
        Err(ScriptRead::Fault(fault)) => Err(Refusal::of_script(alloc, fault)),
        Err(ScriptRead::NoMemory) => Err(Refusal::NoMemory),
    }
}

/// The report of the script, or why there is none.
fn finished<G: Gate + Sync, R: Threads + Wait + Clock + Sync>(
    rt: &R,
    alloc: Global,
    script: Script,
    working: Working,
    gate: &G,
    kept: &mut Option<History>,
) -> Result<Vec<u8>, Refusal>
    requires script { IsScript script }
    requires some { 1 ≤ working.workers }
    ensures report { IfOk result (λ v. ReportsWorked script working.brief v.items kept.new) }
    ensures refusal { IfErr result (λ r. IsRunHalt script kept.old kept.new r) }
{
    match run(rt, alloc, script, working.workers, working.brief, gate) {
        Ok(Finished { report, history }) => {
            *kept = Some(history);
            Ok(report)
        }
        Err(WorkersFault::Limit { which, history }) => {
            *kept = Some(history);
            Err(Refusal::Limit(which))
        }
        Err(WorkersFault::NoMemory) => Err(Refusal::NoMemory),
    }
}
