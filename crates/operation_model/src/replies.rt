//! What a pass is answered.
use behaviour_lang::{List, Locals};
use crgc_ids::{ActorId, ActorList, NodeId, Octets, RefList, Which};

/// Why a cluster does nothing more: the next event would have passed a limit, or there was no memory.
#[derive(Clone, Copy, PartialEq, Eq, Debug)]
pub enum Halt {
    Limit(Which),
    Memory,
}

/// Why an actor takes no message: it is in its turn, or none waits for it.
#[derive(Clone, Copy, PartialEq, Eq, Debug)]
pub enum Why {
    Busy,
    NoMail,
}

/// The answer to an operation.
#[derive(Debug, Drop)]
pub enum Reply {
    /// It is done.
    Done,
    /// There is nothing to do.
    Nothing,
    /// The node has crashed.
    Down(NodeId),
    /// As many turns have begun as the script allows.
    Over,
    /// The actor takes no message now.
    NotReady(Why),
    /// The pass of that number has claimed the node.
    Claimed(u32),
    /// A turn has begun: whose, by which list of which behaviour, with the names that the actor kept and the references of the
    /// message, and whether the actor is a root.
    Turn {
        actor: ActorId,
        behaviour: u32,
        list: List,
        locals: Locals,
        refs: RefList,
        root: bool,
    },
    /// A child was born.
    Born(ActorId),
    /// The spelling of a bulletin.
    Bytes(Octets),
    /// Actors that may take a message.
    Ids(ActorList),
    /// So many actors are busy, so many messages are live, and so many wakes are planned.
    NotYet {
        busy: u64,
        waiting: u64,
        planned: u64,
    },
    /// Nothing is left to do.
    AllDone,
    /// The cluster has halted.
    Halted(Halt),
}
