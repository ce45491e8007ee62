//! What a pass may ask of the cluster.
use behaviour_lang::{Act, Locals};
use crgc_ids::{ActorId, NodeId};
use history_model::Verdict;

/// A refill tells of so many actors at most.
pub const ACTORS_PER_REFILL: usize = 32;

/// One operation on a cluster, which is one step of its history.
#[derive(Debug, Drop)]
pub enum Op {
    /// From now on the pass alone hands bulletins to the node, and sweeps for it.
    Claim {
        node: NodeId,
    },
    /// The turn of the lowest seed that is an idle root and has a planned wake left begins.
    Wake,
    /// The actor's turn begins, with the first message that waits for it.
    Take {
        actor: ActorId,
    },
    /// The next act of the turn that the pass began last.
    Act {
        actor: ActorId,
        act: Act,
    },
    /// The end of that turn, with the names that the actor keeps.
    Rest {
        actor: ActorId,
        locals: Locals,
    },
    /// What the actor noted since its last flush goes to its node's queue; where that then has 32 entries, it is published.
    Flush {
        actor: ActorId,
    },
    /// The node's queue becomes a bulletin.
    Publish {
        node: NodeId,
    },
    /// The lowest window that the node may cut.
    Window {
        at: NodeId,
    },
    /// The lowest removal that the node may make.
    Remove {
        at: NodeId,
    },
    /// What is planned for the lowest message on the link: it is repeated, lost or admitted.
    Carry {
        from: NodeId,
        at: NodeId,
    },
    /// A bulletin of the origin, for the collector of the node.
    Hand {
        node: NodeId,
        origin: NodeId,
        number: u32,
    },
    /// The verdict of the node's collector.
    Sweep {
        verdict: Verdict,
    },
    /// The pass found no memory: the cluster halts.
    GiveUp,
    /// The first [`ACTORS_PER_REFILL`] of the actors that may take a message, without so many before them.
    Refill {
        skip: u32,
    },
    /// Whether nothing is left to do.
    Finished,
}
