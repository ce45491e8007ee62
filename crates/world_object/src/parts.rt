//! What a cluster is made of.
use crate::verdicts::KeptVerdicts;
use crgc_ids::{ActorList, NodeId};
use operation_model::Halt;
use script_actors::ScriptActors;
use script_progress::Progress;
use script_reader::Script;
use std::alloc::Global;
use std::snapshot::Snapshot;
use true_config::World;

/// A cluster of a script: its world, its actors between their turns, how much of the plan is used, the actors that the seeds are,
/// which pass has claimed each node, whether it has halted, and the verdicts of its sweeps. Its world keeps the spelling of each
/// bulletin that was handed to a node, so that each is spelled once.
#[derive(Drop)]
pub(crate) struct ClusterParts {
    pub(crate) world: World,
    pub(crate) actors: ScriptActors,
    pub(crate) progress: Progress,
    pub(crate) seeds: ActorList,
    pub(crate) claims: [Option<u32>; 16],
    pub(crate) halt: Option<Halt>,
    pub(crate) verdicts: KeptVerdicts,
    pub(crate) alloc: Global,
    pub(crate) script: Snapshot<Script>,
}
