//! The cluster.
ghost use Rattle.std.specs.Prelude.{◌≡◌, [], reverse, IfOk};
ghost use Rattle.script_reader.specs.Valid.{IsScript};
ghost use Rattle.run_model.specs.Doing.{cluster_of};
ghost use Rattle.operation_model.specs.Openings.{IsNew, IsSoundOpening};
ghost use Rattle.world_object.specs.Locked.{IsStep, MayStep};
ghost use Rattle.world_object.specs.State.{as_opening};

use crate::parts::ClusterParts;
use crgc_ids::NoMemory;
use history_model::Verdict;
use operation_model::{Halt, Op, Reply};
use script_reader::Script;
use std::alloc::Global;
use std::marker::Model;
use true_config::World;

/// A cluster of a script, in the middle of its run. Contracts see its script, its history, the behaviour and the names of each
/// actor, which pass has claimed each node, whether it has halted, and the verdicts of its sweeps, the last one first. It keeps its
/// allocator.
#[derive(Drop)]
pub struct Cluster {
    parts: ClusterParts,
}

impl Model for Cluster {
    ghost use Rattle.world_object.specs.Standing.{Stands, state_of};
    ghost use Rattle.world_object.specs.State.{ClusterState};

    ghost Value = { ClusterState };

    ghost view = { λ c. state_of c.parts };

    ghost invariant = { λ c. Stands c.parts };
}

impl Cluster {
    /// The cluster of a script: its seeds are born and tied, nothing of its plan is used, and no node is claimed. In the time of
    /// these events.
    pub fn new(alloc: Global, script: Script) -> Result<Cluster, NoMemory>
        requires { IsScript script }
        ensures new { IfOk result (λ c. IsNew (as_opening c)) }
        ensures script { IfOk result (λ c. c.script ≡ script) }
        ensures verdicts { IfOk result (λ c. c.verdicts ≡ []) }
    {
        let parts = ClusterParts::begin(alloc, script)?;
        Ok(Cluster { parts })
    }

    /// Its history is legal, the names of its actors say no more than is held, and its actors are those of its history. It does
    /// nothing: its contract is the law.
    pub fn is_sound(&self)
        ensures { IsSoundOpening (as_opening self.now) }
    {
        let _parts = &self.parts;
    }

    /// The world, in which the history is. Constant time.
    pub fn world(&self) -> &World
        ensures past { result.now.past ≡ self.now.past }
        ensures cluster { result.now.cluster ≡ cluster_of self.now.script }
    {
        &self.parts.world
    }

    /// Why it has halted, if it has. Constant time.
    pub fn halt(&self) -> Option<Halt>
        ensures { result ≡ self.now.halt }
    {
        self.parts.halt
    }

    /// The world, and the verdicts of the sweeps in their order; without the rest. Constant time.
    pub fn into_parts(self) -> (World, Vec<Verdict>)
        ensures past { result.0.past ≡ self.past }
        ensures cluster { result.0.cluster ≡ cluster_of self.script }
        ensures verdicts { reverse result.1.items ≡ self.verdicts }
    {
        let Cluster { parts } = self;
        (parts.world, parts.verdicts.into_vec())
    }

    /// Makes an operation, for the pass of this number; where the cluster has halted, or halts now, the answer is why. Each takes
    /// the time of its events; a wake and the question whether all is finished go over the seeds, a refill over the actors before.
    pub(crate) fn step(&mut self, pass: u32, op: Op) -> Reply
        requires { MayStep self.old pass op }
        ensures { IsStep self.old pass op result self.new }
    {
        self.parts.step(pass, op)
    }
}
