//! The events of a cluster, and the rules that an event may break.
use crgc_ids::{ActorId, NodeId, RefList};

/// One event of the cluster. `docs/FORMATS.md` has the line, the rules and the effect of each form.
#[derive(Debug, Drop)]
pub enum Event {
    /// The next actor of `node` is born: an idle root that holds itself.
    Seed {
        node: NodeId,
    },
    /// Root `owner` gets one more reference to root `target`.
    Tie {
        owner: ActorId,
        target: ActorId,
    },
    /// An idle root becomes busy of itself.
    Wake {
        actor: ActorId,
    },
    /// An idle actor becomes busy with its first waiting message, whose references it now holds.
    Take {
        actor: ActorId,
    },
    /// The next actor of the parent's node is born: idle, no root; it holds itself, and the parent holds it.
    Spawn {
        parent: ActorId,
    },
    /// A message with references, each of which the sender holds.
    Send {
        from: ActorId,
        to: ActorId,
        refs: RefList,
    },
    /// The actor gives up one reference to `target`.
    Drop {
        actor: ActorId,
        target: ActorId,
    },
    /// A root stops being one, for good.
    Retire {
        actor: ActorId,
    },
    /// A busy actor becomes idle.
    Rest {
        actor: ActorId,
    },
    /// The actor's log joins its node's queue as an entry.
    Flush {
        actor: ActorId,
    },
    /// The node's queue becomes one Delta of its stream.
    Publish {
        node: NodeId,
    },
    /// What `at` admitted from `from` since the last window joins the stream of `at`.
    Window {
        at: NodeId,
        from: NodeId,
    },
    /// A copy of message `number` of the link is taken from it and handed to ingress.
    Admit {
        from: NodeId,
        at: NodeId,
        number: u32,
    },
    /// A copy of message `number` of the link is lost.
    Lose {
        from: NodeId,
        at: NodeId,
        number: u32,
    },
    /// Message `number` of the link gets one copy more.
    Repeat {
        from: NodeId,
        at: NodeId,
        number: u32,
    },
    /// The node stops for good.
    Crash {
        node: NodeId,
    },
    /// `at` removes the crashed node `gone`: the link from it is closed, and its Final joins the stream of `at`.
    Remove {
        at: NodeId,
        gone: NodeId,
    },
    /// Bulletin `number` of `origin` is handed to the collector of `to`.
    Hand {
        to: NodeId,
        origin: NodeId,
        number: u32,
    },
    /// The collector of `node` stops what it finds dead.
    Sweep {
        node: NodeId,
    },
}

/// The rules of legality, by the word that a report prints for each.
#[derive(Clone, Copy, PartialEq, Eq, Debug)]
pub enum Rule {
    /// `no-node`: the node is not one of the cluster.
    NoNode,
    /// `no-actor`: the actor was not born.
    NoActor,
    /// `down`: the node, or the actor's node, has crashed.
    Down,
    /// `same-actor`: the two actors named are the same.
    SameActor,
    /// `same-node`: the two nodes named are the same.
    SameNode,
    /// `not-root`: the actor is no root now.
    NotRoot,
    /// `busy`: the actor is busy.
    Busy,
    /// `idle`: the actor is idle.
    Idle,
    /// `no-mail`: no admitted message of the actor is left to take.
    NoMail,
    /// `not-held`: the acting actor holds no reference to it.
    NotHeld,
    /// `supervisor`: in version 2, the last reference of a child to its parent.
    Supervisor,
    /// `blank`: the actor cannot be flushed.
    Blank,
    /// `empty-queue`: the node's entry queue is empty.
    EmptyQueue,
    /// `closed`: the receiving node has removed the sending one.
    Closed,
    /// `nothing-admitted`: nothing was admitted on the link since its last window.
    NothingAdmitted,
    /// `not-on-link`: no copy of that number is on the link.
    NotOnLink,
    /// `not-crashed`: the node is up.
    NotCrashed,
    /// `removed`: it was removed before.
    Removed,
    /// `no-bulletin`: the origin's stream has no such number.
    NoBulletin,
}
