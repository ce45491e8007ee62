//! What the rules ask of a cluster.
ghost use Rattle.std.specs.Prelude.{◌≡◌, ◌≢◌, ◌<◌, not, true, false, nat_lt, length};
ghost use Rattle.history_model.specs.Story.{Story};
ghost use Rattle.history_model.specs.Cluster.{is_born};
ghost use Rattle.history_model.specs.Held.{held};
ghost use Rattle.history_model.specs.Legal.{has_nothing, is_parent};
ghost use Rattle.history_model.specs.Messages.{copies, is_closed, waiting};
ghost use Rattle.history_model.specs.State.{is_busy, is_root, is_up};
ghost use Rattle.history_model.specs.Streams.{can_flush, is_blank, queue, stream, window};

use crgc_ids::{ActorId, NodeId};

/// A cluster at one moment of its history: each answer is what the definitions say of that history. An actor that was not
/// born is idle, no root, holds nothing and has no mail.
pub trait Moment {
    // the constants, and the events until now
    ghost story: { Self → Story };

    /// The number of nodes.
    fn nodes(&self) -> u8
        ensures { result ≡ (story self.now).cluster.nodes };

    /// The version, 1 or 2.
    fn version(&self) -> u8
        ensures { result ≡ (story self.now).cluster.version };

    /// Whether the node has not crashed.
    fn is_up(&self, node: NodeId) -> bool
        ensures { result ≡ is_up node (story self.now).past };

    /// Whether the actor was born.
    fn is_actor(&self, actor: ActorId) -> bool
        ensures { result ≡ is_born actor (story self.now).past };

    /// Whether the actor is busy.
    fn is_busy(&self, actor: ActorId) -> bool
        ensures { result ≡ is_busy actor (story self.now).past };

    /// Whether the actor is a root.
    fn is_root(&self, actor: ActorId) -> bool
        ensures { result ≡ is_root actor (story self.now).past };

    /// Whether `parent` spawned `child`.
    fn is_parent(&self, parent: ActorId, child: ActorId) -> bool
        ensures { result ≡ is_parent parent child (story self.now).past };

    /// How many references to `target` the owner holds.
    fn held(&self, owner: ActorId, target: ActorId) -> u32
        ensures { result ≡ held (story self.now).cluster owner target (story self.now).past };

    /// Whether an admitted message waits for the actor.
    fn has_mail(&self, actor: ActorId) -> bool
        ensures { result ≡ not (has_nothing (waiting actor (story self.now).past)) };

    /// Whether the actor can be flushed; so can one that was not born, of which nothing was told.
    fn can_flush(&self, actor: ActorId) -> bool
        ensures { result ≡ can_flush (story self.now).cluster actor (story self.now).past };

    /// Whether an entry is in the queue of the node, one of the cluster.
    fn has_entries(&self, node: NodeId) -> bool
        requires { node < (story self.now).cluster.nodes }
        ensures { result ≡ not (is_blank (queue (story self.now).cluster node (story self.now).past)) };

    /// How many bulletins the stream of the node, one of the cluster, has.
    fn stream_len(&self, node: NodeId) -> u32
        requires { node < (story self.now).cluster.nodes }
        ensures { result ≡ length (stream (story self.now).cluster node (story self.now).past) };

    /// Whether `at`, which is up, has removed `from`; the two are different nodes of the cluster.
    fn is_closed(&self, from: NodeId, at: NodeId) -> bool
        requires from { from < (story self.now).cluster.nodes }
        requires at { at < (story self.now).cluster.nodes }
        requires apart { from ≢ at }
        requires up { is_up at (story self.now).past ≡ true }
        ensures { result ≡ is_closed from at (story self.now).past };

    /// Whether `at` admitted a message from `from` since the last window of their link, which leads between different nodes
    /// of the cluster.
    fn has_admitted(&self, from: NodeId, at: NodeId) -> bool
        requires from { from < (story self.now).cluster.nodes }
        requires at { at < (story self.now).cluster.nodes }
        requires apart { from ≢ at }
        ensures { result ≡ not (is_blank (window from at (story self.now).past)) };

    /// Whether a copy of the number is on the link, which leads between different nodes of the cluster, is not closed, and
    /// ends at a node that is up.
    fn has_copy(&self, from: NodeId, at: NodeId, number: u32) -> bool
        requires from { from < (story self.now).cluster.nodes }
        requires at { at < (story self.now).cluster.nodes }
        requires apart { from ≢ at }
        requires up { is_up at (story self.now).past ≡ true }
        requires open { is_closed from at (story self.now).past ≡ false }
        ensures { result ≡ nat_lt 0 (copies from at number (story self.now).past) };
}
