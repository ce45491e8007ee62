//! The command `run`, without worker threads.
ghost use Rattle.std.specs.Prelude.{◌≡◌, ◌≤◌, IfOk, IfErr};
ghost use Rattle.cluster_top.specs.Refusals.{IsRunRefusal, IsScriptRefusal, line_for, status_of};
ghost use Rattle.cluster_top.specs.RunOutcome.{IsRunReport, RunCameTo};
ghost use Rattle.cluster_top.specs.declared.status.Status.TheVariants as ends;
ghost use Rattle.script_player.specs.Reported.{ReportsFixed};
ghost use Rattle.script_reader.specs.Valid.{IsScript};

use crate::input::input;
use crate::refusal::Refusal;
use crgc_io::Source;
use history_model::live_laws::what_is_not_lost_is_delivered;
use run_model::round_laws::{
    a_round_stops_all_that_are_quiescent, each_node_that_is_up_sweeps,
    each_sweep_of_a_round_is_at_a_quiet_point,
};
use run_model::run_laws::{the_beginning_is_legal, the_fixed_schedule_is_legal};
use script_player::{Ran, RunFault, run};
use script_reader::{Script, ScriptRead, read_script};
use std::alloc::Global;
use std::mem;

/// The report of the script that the source gives, run by the fixed schedule, in brief or in full, or why there is none.
pub fn ran<S: Source>(alloc: Global, source: &mut S, brief: bool) -> Result<Vec<u8>, Refusal>
    ensures report { IfOk result (λ v. RunCameTo S.left S.given S.ended S.faults source.old source.new brief ends.Done v.items) }
    ensures refusal { IfErr result (λ r. RunCameTo S.left S.given S.ended S.faults source.old source.new brief (status_of r) (line_for r)) }
    ensures never_falls { S.faults source.old ≤ S.faults source.new }
{
    match input(alloc, source) {
        Ok(bytes) => report(alloc, bytes.as_slice(), brief),
        Err(refusal) => Err(refusal),
    }
}

/// The report of the script that the bytes stand for, or why there is none.
fn report(alloc: Global, bytes: &[u8], brief: bool) -> Result<Vec<u8>, Refusal>
    ensures report { IfOk result (λ v. IsRunReport bytes.now brief v.items) }
    ensures refusal { IfErr result (λ r. IsScriptRefusal bytes.now r) }
{
    the_beginning_is_legal();
    the_fixed_schedule_is_legal();
    each_node_that_is_up_sweeps();
    what_is_not_lost_is_delivered();
    each_sweep_of_a_round_is_at_a_quiet_point();
    a_round_stops_all_that_are_quiescent();
    match read_script(alloc, bytes) {
        Ok(script) => finished(alloc, script, brief),
        Err(ScriptRead::Fault(fault)) => Err(Refusal::of_script(alloc, fault)),
        Err(ScriptRead::NoMemory) => Err(Refusal::NoMemory),
    }
}

/// The report of the script, or why there is none. The cluster is forgotten.
fn finished(alloc: Global, script: Script, brief: bool) -> Result<Vec<u8>, Refusal>
    requires script { IsScript script }
    ensures report { IfOk result (λ v. ReportsFixed script brief v.items) }
    ensures refusal { IfErr result (λ r. IsRunRefusal script r) }
{
    match run(alloc, script, brief) {
        Ok(Ran { report, cluster }) => {
            mem::forget(cluster);
            Ok(report)
        }
        Err(RunFault::Limit(which)) => Err(Refusal::Limit(which)),
        Err(RunFault::NoMemory) => Err(Refusal::NoMemory),
    }
}
