//! Plain records: what logs, bulletins and verdicts contain.
ghost use Rattle.std.specs.Prelude.{◌<◌};

use crgc_ids::{
    ActorCounts, ActorId, ActorList, Cut, ItemList, NodeId, NodeSet, PairCounts, RisingList, Row,
};

/// One actor's state in a Delta: how many messages it took, and the flags of its last flush.
#[derive(Clone, Copy, PartialEq, Eq, Debug)]
pub struct StateRow {
    pub actor: ActorId,
    pub received: u32,
    pub busy: bool,
    pub root: bool,
}

impl Row for StateRow {
    ghost use Rattle.std.specs.Prelude.{⊤};
    ghost use Rattle.crgc_ids.specs.Actor.{IsActorBelow};

    ghost is_below = { λ r s. IsActorBelow r.actor s.actor };

    ghost may_stand = { λ r. ⊤ };
}

/// The states of a Delta, rising by actor.
pub type StateRows = RisingList<StateRow>;

/// What one actor noted since its last flush, with its flags at this one.
#[derive(Debug, Drop)]
pub struct Entry {
    pub actor: ActorId,
    pub received: u32,
    pub busy: bool,
    pub root: bool,
    pub created: PairCounts,
    pub sent: ActorCounts,
    pub released: ActorCounts,
}

/// The entries of a node since its last publish, added up.
#[derive(Debug, Drop)]
pub struct Delta {
    pub node: NodeId,
    pub states: StateRows,
    pub sent: ActorCounts,
    pub created: PairCounts,
    pub released: PairCounts,
}

/// What node `at` admitted from node `from` since the last window of that link: messages by recipient, and pairs of a
/// recipient and a reference carried to it.
#[derive(Debug, Drop)]
pub struct Window {
    pub at: NodeId,
    pub from: NodeId,
    pub messages: ActorCounts,
    pub carried: PairCounts,
}

/// One bulletin of a stream. A Final is the last Window of a link; it also says that `from` was removed.
#[derive(Debug, Drop)]
pub enum Bulletin {
    Delta(Delta),
    Window(Window),
    Final(Window),
}

/// One stopped actor with its evidence: the messages that it took, those told by nodes that are not lost, those
/// admitted from lost nodes, and the actors with a positive edge to it, rising.
#[derive(Debug, Drop)]
pub struct Stop {
    pub actor: ActorId,
    pub received: u64,
    pub told: u64,
    pub admitted: u64,
    pub owners: ActorList,
}

/// The stops of a sweep, rising by actor.
pub type StopList = ItemList<Stop>;

/// What a sweep finds: how much of each origin is folded at its node, the lost nodes, and the stops.
#[derive(Debug, Drop)]
pub struct Verdict {
    pub node: NodeId,
    pub cut: Cut,
    pub lost: NodeSet,
    pub stops: StopList,
}
