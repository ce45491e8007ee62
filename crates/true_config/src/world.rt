//! The world.
ghost use Rattle.std.specs.Prelude.{◌≡◌, ◌≢◌, ◌≤◌, nat_lt, not, length, true, false, [], IfOk, IfSome};
ghost use Rattle.history_model.specs.Cluster.{births, is_born};
ghost use Rattle.history_model.specs.Held.{held};
ghost use Rattle.history_model.specs.Legal.{has_nothing, is_parent};
ghost use Rattle.history_model.specs.Live.{live_count};
ghost use Rattle.history_model.specs.Messages.{copies, is_closed, waiting};
ghost use Rattle.history_model.specs.State.{is_busy, is_root, is_up};
ghost use Rattle.history_model.specs.Streams.{can_flush, is_blank, queue, stream, window};
ghost use Rattle.history_model.specs.Sweeps.{is_stopped};
ghost use Rattle.traffic.specs.Readings.{IsNextReady};

use crate::track::Track;
use bulletin_streams::BulletinStreams;
use crgc_ids::{ActorId, NoMemory, NodeId};
use history_model::History;
use roster::Roster;
use std::alloc::Global;
use std::marker::Model;
use traffic::Traffic;

/// The true configuration of a cluster of 1 to 16 nodes, with its history. It keeps its allocator. Contracts see its constants
/// and its events, the newest first.
#[derive(Drop)]
pub struct World {
    pub(crate) history: Track,
    pub(crate) traffic: Traffic,
    pub(crate) roster: Roster,
    pub(crate) streams: BulletinStreams,
}

impl Model for World {
    ghost use Rattle.history_model.specs.Story.{Story};
    ghost use Rattle.true_config.specs.Keeping.{IsWorldOf};

    ghost Value = { Story };

    ghost view = { λ w. w.history };

    ghost invariant = { λ w. IsWorldOf w.history.cluster w.history.past w.traffic w.roster w.streams };
}

impl World {
    /// The empty history of a cluster: all nodes are up, and no actor was born. A record is kept of its events.
    pub fn new(alloc: Global, nodes: u8, version: u8) -> Result<World, NoMemory>
        requires some_node { 1 ≤ nodes }
        requires nodes { nodes ≤ 16 }
        requires some_version { 1 ≤ version }
        requires version { version ≤ 2 }
        ensures nodes { IfOk result (λ w. w.cluster.nodes ≡ nodes) }
        ensures version { IfOk result (λ w. w.cluster.version ≡ version) }
        ensures past { IfOk result (λ w. w.past ≡ []) }
    {
        World::begin(alloc, Track::recorded(alloc, nodes, version))
    }

    /// The same, and no record is kept: the events take no room.
    pub fn unrecorded(alloc: Global, nodes: u8, version: u8) -> Result<World, NoMemory>
        requires some_node { 1 ≤ nodes }
        requires nodes { nodes ≤ 16 }
        requires some_version { 1 ≤ version }
        requires version { version ≤ 2 }
        ensures nodes { IfOk result (λ w. w.cluster.nodes ≡ nodes) }
        ensures version { IfOk result (λ w. w.cluster.version ≡ version) }
        ensures past { IfOk result (λ w. w.past ≡ []) }
    {
        World::begin(alloc, Track::unrecorded(alloc, nodes, version))
    }

    /// The world of this history, which is empty.
    fn begin(alloc: Global, history: Track) -> Result<World, NoMemory>
        requires { history.past ≡ [] }
        ensures { IfOk result (λ w. w ≡ history) }
    {
        let nodes = history.nodes();
        let version = history.version();
        let Ok(traffic) = Traffic::new(alloc, nodes) else {
            return Err(NoMemory);
        };
        let Ok(roster) = Roster::new(alloc, nodes, version) else {
            return Err(NoMemory);
        };
        let Ok(streams) = BulletinStreams::new(alloc) else {
            return Err(NoMemory);
        };
        Ok(World {
            history,
            traffic,
            roster,
            streams,
        })
    }

    /// The record of the history; None where none is kept. Constant time.
    pub fn history(&self) -> Option<&History>
        ensures { IfSome result (λ h. h.now ≡ self.now) }
    {
        self.history.history()
    }

    /// The record of the history, without the rest; None where none is kept. Constant time.
    pub fn into_history(self) -> Option<History>
        ensures { IfSome result (λ h. h ≡ self) }
    {
        self.history.into_history()
    }

    /// How many events the history has. Constant time.
    pub fn len(&self) -> usize
        ensures { result ≡ length self.now.past }
    {
        self.history.len()
    }

    /// The number of nodes, 1 to 16. Constant time.
    pub fn nodes(&self) -> u8
        ensures nodes { result ≡ self.now.cluster.nodes }
        ensures some { 1 ≤ result }
        ensures at_most { result ≤ 16 }
    {
        self.history.nodes()
    }

    /// The version of the rules. Constant time.
    pub fn version(&self) -> u8
        ensures { result ≡ self.now.cluster.version }
    {
        self.history.version()
    }

    /// Whether the node has not crashed. Constant time.
    pub fn is_up(&self, node: NodeId) -> bool
        ensures { result ≡ is_up node self.now.past }
    {
        self.traffic.is_up(node)
    }

    /// How many actors were born on the node. Constant time.
    pub fn born(&self, node: NodeId) -> u32
        ensures { result ≡ births node self.now.past }
    {
        self.roster.born(node)
    }

    /// Whether the actor was born. Constant time.
    pub fn is_actor(&self, actor: ActorId) -> bool
        ensures { result ≡ is_born actor self.now.past }
    {
        self.roster.is_actor(actor)
    }

    /// Whether the actor is busy; one that was not born is not. Constant time.
    pub fn is_busy(&self, actor: ActorId) -> bool
        ensures { result ≡ is_busy actor self.now.past }
    {
        self.roster.is_busy(actor)
    }

    /// Whether the actor is a root; one that was not born is not. Constant time.
    pub fn is_root(&self, actor: ActorId) -> bool
        ensures { result ≡ is_root actor self.now.past }
    {
        self.roster.is_root(actor)
    }

    /// Whether the actor was stopped; one that was not born was not. Constant time.
    pub fn is_stopped(&self, actor: ActorId) -> bool
        ensures { result ≡ is_stopped self.now.cluster actor self.now.past }
    {
        self.roster.is_stopped(actor)
    }

    /// Whether the first actor spawned the second. Constant time.
    pub fn is_parent(&self, parent: ActorId, child: ActorId) -> bool
        ensures { result ≡ is_parent parent child self.now.past }
    {
        self.roster.is_parent(parent, child)
    }

    /// How many references to the target the owner holds; one that was not born holds none. Logarithmic time in the number of
    /// its targets.
    pub fn held(&self, owner: ActorId, target: ActorId) -> u32
        ensures { result ≡ held self.now.cluster owner target self.now.past }
    {
        self.roster.held(owner, target)
    }

    /// Whether a message waits for the actor. Logarithmic time in the number of actors.
    pub fn has_mail(&self, actor: ActorId) -> bool
        ensures { result ≡ not (has_nothing (waiting actor self.now.past)) }
    {
        0 < self.traffic.mail(actor)
    }

    /// How many messages wait for the actor. Logarithmic time in the number of actors.
    pub fn mail(&self, actor: ActorId) -> usize
        ensures { result ≡ length (waiting actor self.now.past) }
    {
        self.traffic.mail(actor)
    }

    /// Whether the actor has something to tell at a flush; so has one that was not born, of which nothing was told. Constant time.
    pub fn can_flush(&self, actor: ActorId) -> bool
        ensures { result ≡ can_flush self.now.cluster actor self.now.past }
    {
        self.roster.can_flush(actor)
    }

    /// Whether an entry waits for the next publish of the node. Constant time.
    pub fn has_entries(&self, node: NodeId) -> bool
        ensures { result ≡ not (is_blank (queue self.now.cluster node self.now.past)) }
    {
        self.streams.has_entries(node)
    }

    /// How many bulletins the stream of the node has. Constant time.
    pub fn stream_len(&self, origin: NodeId) -> u32
        ensures { result ≡ length (stream self.now.cluster origin self.now.past) }
    {
        self.streams.stream_len(origin)
    }

    /// Whether `at`, which is up, has removed the other node. Constant time.
    pub fn is_closed(&self, from: NodeId, at: NodeId) -> bool
        requires apart { from ≢ at }
        requires up { is_up at self.now.past ≡ true }
        ensures { result ≡ is_closed from at self.now.past }
    {
        !self.traffic.is_open(from, at)
    }

    /// Whether `at` admitted a message from the other node since the last window of their link. Constant time.
    pub fn has_admitted(&self, from: NodeId, at: NodeId) -> bool
        requires apart { from ≢ at }
        ensures { result ≡ not (is_blank (window from at self.now.past)) }
    {
        0 < self.traffic.named(from, at)
    }

    /// Whether a copy of the number is on a link that is not closed and ends at a node that is up. Logarithmic time in the
    /// numbers that have a copy on the link.
    pub fn has_copy(&self, from: NodeId, at: NodeId, number: u32) -> bool
        requires apart { from ≢ at }
        requires up { is_up at self.now.past ≡ true }
        requires open { is_closed from at self.now.past ≡ false }
        ensures { result ≡ nat_lt 0 (copies from at number self.now.past) }
    {
        0 < self.traffic.copies(from, at, number)
    }

    /// The lowest actor, of those above the one that is given, that may take a message; None exactly where there is none.
    /// Logarithmic time in the number of actors.
    pub fn next_ready(&self, after: Option<ActorId>) -> Option<ActorId>
        ensures { IsNextReady self.now.past after result }
    {
        self.traffic.next_ready(after)
    }

    /// How many messages are live. Constant time.
    pub fn live_count(&self) -> u64
        ensures { result ≡ live_count self.now.cluster self.now.past }
    {
        self.traffic.live_count()
    }
}
