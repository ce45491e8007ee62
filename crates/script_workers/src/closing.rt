//! The round that closes a run.
ghost use Rattle.std.specs.Prelude.{◌≡◌, IfErr, IfOk, IfSome, None, OnOk, reverse};
ghost use Rattle.std.specs.List.{AllByRecursion};
ghost use Rattle.history_model.specs.Legal.{IsLegal, refusal};
ghost use Rattle.journal_model.specs.Limits.{limit_passed};
ghost use Rattle.journal_model.specs.Verdicts.{AreVerdicts};
ghost use Rattle.node_collectors.specs.Standing.{AreCollectorsAt};
ghost use Rattle.run_model.specs.Schedule.{IsWithinLimits};
ghost use Rattle.true_config.specs.Applying.{CarriesFew};
ghost use Rattle.true_config.specs.Steps.{Adds};
ghost use Rattle.script_workers.specs.Closed.{CarryFew, IsClosed, IsHalfClosed};
ghost use Rattle.script_workers.specs.Returned.{StandsIfUp};

use crate::fault::WorkersFault;
use crate::gathering::by_node;
use crate::runs::Finished;
use cluster_course::{Course, Halt};
use cluster_round::{RoundHalt, round};
use collector::Collector;
use crgc_ids::NoMemory;
use history_model::{Event, History, Verdict};
use std::alloc::Global;
use true_config::World;

/// The report of the world's history, in brief or in full, after one more round; or why there is none. The round goes on with the
/// collectors that came back and the verdicts of the sweeps, the oldest first. Where a node that is up has none, new ones take all
/// that the history hands to them.
pub(crate) fn close_run(
    alloc: Global,
    world: World,
    verdicts: Vec<Verdict>,
    back: Vec<Collector>,
    brief: bool,
) -> Result<Finished, WorkersFault>
    requires within { IsWithinLimits world.cluster world.past }
    requires verdicts { AreVerdicts world.cluster world.past (reverse verdicts.items) }
    requires back { AllByRecursion (StandsIfUp world.cluster world.past) back.items }
    ensures report { IfOk result (IsClosed world brief) }
    ensures fault { IfErr result (IsHalfClosed world) }
{
    match by_node(alloc, &world, back) {
        Ok(Some(collectors)) => close(alloc, Course::of(world, collectors, verdicts), brief),
        Ok(None) => close_anew(alloc, world, brief),
        Err(NoMemory) => Err(WorkersFault::NoMemory),
    }
}

/// The same, with new collectors.
fn close_anew(alloc: Global, world: World, brief: bool) -> Result<Finished, WorkersFault>
    requires { IsWithinLimits world.cluster world.past }
    ensures report { IfOk result (IsClosed world brief) }
    ensures fault { IfErr result (IsHalfClosed world) }
{
    world.is_lawful();
    let Some(history) = world.into_history() else {
        return Err(WorkersFault::NoMemory);
    };
    match course_of(alloc, history) {
        Ok(course) => close(alloc, course, brief),
        Err(NoMemory) => Err(WorkersFault::NoMemory),
    }
}

/// The report of the history of the course, in brief or in full, after one more round; or why there is none.
fn close(alloc: Global, mut course: Course, brief: bool) -> Result<Finished, WorkersFault>
    ensures report { IfOk result (IsClosed course brief) }
    ensures fault { IfErr result (IsHalfClosed course) }
{
    match round(&mut course) {
        Ok(()) => {}
        Err(RoundHalt::Limit(which)) => {
            let Some(history) = course.into_history() else {
                return Err(WorkersFault::NoMemory);
            };
            return Err(WorkersFault::Limit { which, history });
        }
        Err(RoundHalt::NoMemory) => return Err(WorkersFault::NoMemory),
    }
    course.is_lawful();
    match course.report(alloc, brief) {
        Ok(report) => {
            let Some(history) = course.into_history() else {
                return Err(WorkersFault::NoMemory);
            };
            Ok(Finished { report, history })
        }
        Err(NoMemory) => Err(WorkersFault::NoMemory),
    }
}

/// The course of a history, with collectors that took all that was handed to them. In the time that the course takes for its events.
fn course_of(alloc: Global, history: History) -> Result<Course, NoMemory>
    requires legal { IsLegal history.cluster history.past }
    requires within { IsWithinLimits history.cluster history.past }
    requires few { CarryFew history.past }
    ensures { IfOk result (λ c. c ≡ history) }
{
    let mut course = Course::begin_recorded(alloc, history.nodes(), history.version())?;
    let mut events = history.events();
    while let Some(event) = events.next(alloc)? {
        follow_next(&mut course, event)?;
    }
    Ok(course)
}

/// The event happens, which neither a rule nor a limit hinders.
fn follow_next(course: &mut Course, event: Event) -> Result<(), NoMemory>
    requires legal { refusal course.old.cluster event course.old.past ≡ None }
    requires limit { limit_passed course.old.cluster event course.old.past ≡ None }
    requires few { CarriesFew event }
    ensures ok { OnOk result (Adds event course.old course.new) }
{
    match course.follow(event) {
        Ok(_) => Ok(()),
        Err(Halt::Rule(_)) => unreachable!(),
        Err(Halt::Limit(_)) => unreachable!(),
        Err(Halt::NoMemory) => Err(NoMemory),
    }
}
