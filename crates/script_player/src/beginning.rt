//! The beginning of a run: the seeds and the ties of its script.
ghost use Rattle.std.specs.Prelude.{◌≡◌, ◌<◌, ◌≤◌, [], map, IfErr, IfOk, OnOk};
ghost use Rattle.history_model.specs.declared.events.Event.TheVariants as events;
ghost use Rattle.history_model.specs.Rows.{onto};
ghost use Rattle.script_reader.specs.Valid.{IsScript};
ghost use Rattle.script_reader.specs.declared.script.Seed.{Seed as SeedRow};
ghost use Rattle.run_model.specs.Doing.{beginning, cluster_of, seed_actors};
ghost use Rattle.run_model.specs.Schedule.{IsWithinLimits};
ghost use Rattle.script_player.specs.Beginning.{IsBegun, seeds_of};
ghost use Rattle.script_player.specs.Making.{HaltsOn};

use crate::fault::RunFault;
use crate::making::{child_in, make};
use cluster_course::Course;
use crgc_ids::ActorId;
use history_model::Event;
use script_reader::Script;
use std::alloc::Global;

/// The course of a script's cluster, with the script's seeds and ties, in order, for a report in brief or in full. In the time of these
/// events.
pub(crate) fn begin_course(alloc: Global, script: &Script, brief: bool) -> Result<Course, RunFault>
    requires { IsScript script.now }
    ensures begun { IfOk result (λ c. IsBegun script.now (beginning script.now) c) }
    ensures fault { IfErr result (HaltsOn (cluster_of script.now) (beginning script.now)) }
{
    let mut course = Course::begin(alloc, script.nodes, 2, brief)?;
    let seeds = match seed_all(&mut course, alloc, script) {
        Ok(seeds) => seeds,
        Err(fault) => return Err(fault),
    };
    tie_all(&mut course, seeds.as_slice(), script)?;
    Ok(course)
}

/// The seeds are born, in order; the answer are the actors that they are.
fn seed_all(course: &mut Course, alloc: Global, script: &Script) -> Result<Vec<ActorId>, RunFault>
    requires script { IsScript script.now }
    requires begun { IsBegun script.now [] course.old }
    ensures begun { OnOk result (IsBegun script.now (seeds_of script.now) course.new) }
    ensures actors { IfOk result (λ seeds. seeds.items ≡ seed_actors script.now) }
    ensures fault { IfErr result (HaltsOn (cluster_of script.now) (seeds_of script.now)) }
{
    let mut actors = Vec::new(alloc);
    for seed in script.seeds.as_slice() {
        let told = match make(course, Event::Seed { node: seed.node }) {
            Ok(told) => told,
            Err(fault) => return Err(fault),
        };
        if actors.push(child_in(told)).is_err() {
            return Err(RunFault::NoMemory);
        }
    }
    Ok(actors)
}

/// The seeds are tied, in the order of the ties.
fn tie_all(course: &mut Course, seeds: &[ActorId], script: &Script) -> Result<(), RunFault>
    requires script { IsScript script.now }
    requires seeds { seeds.now ≡ seed_actors script.now }
    requires begun { IsBegun script.now (seeds_of script.now) course.old }
    ensures begun { OnOk result (IsBegun script.now (beginning script.now) course.new) }
    ensures fault { IfErr result (HaltsOn (cluster_of script.now) (beginning script.now)) }
{
    for tie in script.ties.as_slice() {
        let owner = seeds[tie.from as usize];
        let target = seeds[tie.to as usize];
        match make(course, Event::Tie { owner, target }) {
            Ok(_) => {}
            Err(fault) => return Err(fault),
        }
    }
    Ok(())
}
