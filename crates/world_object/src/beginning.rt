//! The cluster that a script makes.
ghost use Rattle.std.specs.Prelude.{◌≡◌, ◌≤◌, ◌∷◌, [], map, IfOk, OnOk};
ghost use Rattle.history_model.specs.declared.events.Event.TheVariants as events;
ghost use Rattle.history_model.specs.Cluster.{newborn};
ghost use Rattle.run_model.specs.Doing.{beginning, seed_actors};
ghost use Rattle.script_reader.specs.Valid.{IsScript};
ghost use Rattle.script_progress.specs.Standing.{IsProgressAt};
ghost use Rattle.true_config.specs.Steps.{Adds};
ghost use Rattle.operation_model.specs.Openings.{IsNew};
ghost use Rattle.world_object.specs.Standing.{ArePartsOf, IsBegun, Stands, opening_of, seeds_of};

use crate::making::child_in;
use crate::parts::ClusterParts;
use crate::verdicts::KeptVerdicts;
use crgc_ids::{ActorId, ActorList, NoMemory, NodeId};
use history_model::Event;
use script_actors::ScriptActors;
use script_progress::Progress;
use script_reader::Script;
use std::alloc::Global;
use std::snapshot::Snapshot;
use true_config::{Applied, World};

impl ClusterParts {
    /// The cluster with the script's seeds and ties, in which nothing of the plan is used and no node is claimed.
    pub(crate) fn begin(alloc: Global, script: Script) -> Result<ClusterParts, NoMemory>
        requires { IsScript script }
        ensures stands { IfOk result Stands }
        ensures new { IfOk result (λ p. IsNew (opening_of p)) }
        ensures script { IfOk result (λ p. p.script.value ≡ script) }
        ensures verdicts { IfOk result (λ p. p.verdicts ≡ []) }
    {
        let start = Snapshot::of(&script);
        let mut world = World::new(alloc, script.nodes, 2)?;
        let seeds = begin_world(&mut world, alloc, &script)?;
        let actors = ScriptActors::begin(alloc, &script)?;
        let progress = begin_progress(alloc, script)?;
        Ok(parts_of(alloc, world, seeds, actors, progress, start))
    }
}

/// These parts make a cluster in which no node is claimed.
fn parts_of(
    alloc: Global,
    world: World,
    seeds: ActorList,
    actors: ScriptActors,
    progress: Progress,
    script: Snapshot<Script>,
) -> ClusterParts
    requires { ArePartsOf script.value world seeds actors progress }
    ensures stands { Stands result }
    ensures new { IsNew (opening_of result) }
    ensures script { result.script.value ≡ script.value }
    ensures verdicts { result.verdicts ≡ [] }
{
    ClusterParts {
        world,
        actors,
        progress,
        seeds,
        claims: [None; 16],
        halt: None,
        verdicts: KeptVerdicts::new(alloc),
        alloc,
        script,
    }
}

/// The script's seeds and ties; the answer are the actors that the seeds are.
fn begin_world(world: &mut World, alloc: Global, script: &Script) -> Result<ActorList, NoMemory>
    requires script { IsScript script.now }
    requires begun { IsBegun script.now [] world.old }
    ensures begun { OnOk result (IsBegun script.now (beginning script.now) world.new) }
    ensures actors { IfOk result (λ l. l ≡ seed_actors script.now) }
{
    let seeds = seed_all(world, alloc, script)?;
    tie_all(world, seeds.as_slice(), script)?;
    Ok(seeds)
}

/// Nothing of the script's plan is used.
fn begin_progress(alloc: Global, script: Script) -> Result<Progress, NoMemory>
    requires { IsScript script }
    ensures { IfOk result (λ p. IsProgressAt script (beginning script) p) }
{
    let Script {
        nodes,
        code: _code,
        seeds,
        ties: _ties,
        plan,
        turns,
    } = script;
    Progress::begin(alloc, nodes, &seeds, plan, turns)
}

/// The seeds are born, in order; the answer are the actors that they are.
fn seed_all(world: &mut World, alloc: Global, script: &Script) -> Result<ActorList, NoMemory>
    requires { IsBegun script.now [] world.old }
    ensures begun { OnOk result (IsBegun script.now (seeds_of script.now) world.new) }
    ensures actors { IfOk result (λ l. l ≡ seed_actors script.now) }
{
    let mut actors = ActorList::new(alloc);
    for seed in script.seeds.as_slice() {
        let actor = birth(world, seed.node)?;
        actors.push(actor)?;
    }
    Ok(actors)
}

/// The next actor of the node is born.
fn birth(world: &mut World, node: NodeId) -> Result<ActorId, NoMemory>
    ensures actor { IfOk result (λ a. a ≡ newborn node world.old.past) }
    ensures ok { OnOk result (Adds (events.Seed node) world.old world.new) }
{
    match world.apply(&Event::Seed { node }) {
        Ok(Applied::Done(told)) => Ok(child_in(told)),
        _ => Err(NoMemory),
    }
}

/// The seeds are tied, in the order of the ties.
fn tie_all(world: &mut World, seeds: &[ActorId], script: &Script) -> Result<(), NoMemory>
    requires script { IsScript script.now }
    requires seeds { seeds.now ≡ seed_actors script.now }
    requires begun { IsBegun script.now (seeds_of script.now) world.old }
    ensures begun { OnOk result (IsBegun script.now (beginning script.now) world.new) }
{
    for tie in script.ties.as_slice() {
        tie_one(world, seeds[tie.from as usize], seeds[tie.to as usize])?;
    }
    Ok(())
}

/// The owner gets a reference to the target.
fn tie_one(world: &mut World, owner: ActorId, target: ActorId) -> Result<(), NoMemory>
    ensures { OnOk result (Adds (events.Tie owner target) world.old world.new) }
{
    match world.apply(&Event::Tie { owner, target }) {
        Ok(Applied::Done(_)) => Ok(()),
        _ => Err(NoMemory),
    }
}
