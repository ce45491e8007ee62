//! A script run from its seeds to its report.
ghost use Rattle.std.specs.Prelude.{◌≡◌, ◌<◌, IfErr, IfOk, Some, reverse};
ghost use Rattle.script_reader.specs.Valid.{IsScript, Scripted};
ghost use Rattle.run_model.specs.Doing.{cluster_of};
ghost use Rattle.operation_model.specs.declared.replies.Halt.TheVariants.{Memory};
ghost use Rattle.script_workers.specs.Ended.{CanBeClosed, IsFinishedRun, IsWorked, IsWorkersFault, halt_at_limit};

use crate::closing::close_run;
use crate::fault::WorkersFault;
use crate::threads::{Crew, serve_all};
use collected_calls::laws::a_collector_stands_at_the_world;
use collector::Collector;
use crgc_ids::{NoMemory, Which};
use crgc_io::Gate;
use history_model::{History, Verdict};
use operation_model::Halt;
use script_reader::Script;
use std::alloc::Global;
use std::sync::Wait;
use std::thread::Threads;
use std::time::Clock;
use true_config::World;
use turn_lock::TurnLock;
use world_object::{Cluster, Shared};

/// The report of a run, and the history that it reports.
#[derive(Drop)]
pub struct Finished {
    pub report: Vec<u8>,
    pub history: History,
}

/// The report, in brief or in full, of the history that so many workers make of the script, with the round that closes it; or why
/// there is none. The gate is told of each turn as it begins. May wait.
///
/// Beside the workers each node has a pump and a collector. No clause says that these do anything, and a test shows it.
pub fn run<G: Gate + Sync, R: Threads + Wait + Clock + Sync>(
    rt: &R,
    alloc: Global,
    script: Script,
    workers: u32,
    brief: bool,
    gate: &G,
) -> Result<Finished, WorkersFault>
    requires script { IsScript script }
    requires some { 0 < workers }
    ensures report { IfOk result (λ f. IsFinishedRun script brief f.report.items f.history) }
    ensures fault { IfErr result (IsWorkersFault script) }
{
    match run_turns(rt, alloc, script, workers, gate) {
        Ok(worked) => end_run(alloc, worked, brief),
        Err(NoMemory) => Err(WorkersFault::NoMemory),
    }
}

/// What the threads leave: the world, the verdicts of its sweeps, the oldest first, the collectors that came back, and the limit at
/// which the cluster halted, if it did.
#[derive(Drop)]
pub struct Worked {
    pub world: World,
    pub verdicts: Vec<Verdict>,
    pub back: Vec<Collector>,
    pub halted: Option<Which>,
}

/// The report of the world's history with one round more; or why there is none, as where it halted at a limit.
fn end_run(alloc: Global, worked: Worked, brief: bool) -> Result<Finished, WorkersFault>
    requires { CanBeClosed worked }
    ensures report { IfOk result (λ f. (s : Scripted) → IsWorked s worked.world worked.halted → IsFinishedRun s brief f.report.items f.history) }
    ensures fault { IfErr result (λ f. (s : Scripted) → IsWorked s worked.world worked.halted → IsWorkersFault s f) }
{
    let Worked {
        world,
        verdicts,
        back,
        halted,
    } = worked;
    match halted {
        None => close_run(alloc, world, verdicts, back, brief),
        Some(which) => {
            let Some(history) = world.into_history() else {
                return Err(WorkersFault::NoMemory);
            };
            Err(WorkersFault::Limit { which, history })
        }
    }
}

/// What so many workers make of the script before the closing round.
fn run_turns<G: Gate + Sync, R: Threads + Wait + Clock + Sync>(
    rt: &R,
    alloc: Global,
    script: Script,
    workers: u32,
    gate: &G,
) -> Result<Worked, NoMemory>
    requires script { IsScript script }
    requires some { 0 < workers }
    ensures worked { IfOk result (λ r. IsWorked script r.world r.halted) }
    ensures left { IfOk result CanBeClosed }
{
    let code = script.code.copy(alloc)?;
    let crew = Crew {
        workers,
        nodes: script.nodes,
    };
    let count = workers.saturating_add(2 * u32::from(crew.nodes));
    let cluster = Cluster::new(alloc, script)?;
    cluster.is_sound();
    a_collector_stands_at_the_world();
    match TurnLock::<Shared>::new(alloc, cluster) {
        Ok((lock, first)) => {
            let (first, back) = serve_all(rt, alloc, &lock, first, &code, gate, crew, count);
            worked_of(lock.close(first), back)
        }
        Err((_, want)) => Err(want),
    }
}

/// What is left of a cluster on which nobody works any more, with the collectors that came back.
fn worked_of(cluster: Cluster, back: Vec<Collector>) -> Result<Worked, NoMemory>
    ensures cluster { IfOk result (λ r. r.world.cluster ≡ cluster_of cluster.script) }
    ensures past { IfOk result (λ r. r.world.past ≡ cluster.past) }
    ensures verdicts { IfOk result (λ r. reverse r.verdicts.items ≡ cluster.verdicts) }
    ensures back { IfOk result (λ r. r.back.items ≡ back.items) }
    ensures halt { IfOk result (λ r. cluster.halt ≡ halt_at_limit r.halted) }
    ensures err { IfErr result (λ _. cluster.halt ≡ Some Memory) }
{
    let halted = match cluster.halt() {
        None => None,
        Some(Halt::Limit(which)) => Some(which),
        Some(Halt::Memory) => return Err(NoMemory),
    };
    let (world, verdicts) = cluster.into_parts();
    Ok(Worked {
        world,
        verdicts,
        back,
        halted,
    })
}
