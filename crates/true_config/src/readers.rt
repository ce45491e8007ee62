//! What is read of a world.
ghost use Rattle.std.specs.Prelude.{◌≡◌, ◌≢◌, ◌≤◌, length, None, IfNone, IfSome};
ghost use Rattle.history_model.specs.Live.{busy_count};
ghost use Rattle.history_model.specs.Streams.{stream};
ghost use Rattle.history_model.specs.Tells.{IsOrdered};
ghost use Rattle.bulletin_streams.specs.Standing.{TellsNumber, queued};
ghost use Rattle.graph_wire.specs.Writable.{IsWritable};
ghost use Rattle.roster.specs.Standing.{stopped_at};
ghost use Rattle.traffic.specs.Readings.{IsHead, IsNextRemoval, IsNextWindow};
ghost use Rattle.true_config.specs.Readings.{IsNextFlush};

use crate::World;
use bulletin_streams::laws::bulletins_fit_the_wire;
use crgc_ids::{ActorId, NodeId};
use history_model::Bulletin;

impl World {
    /// How many actors of the node were stopped. Constant time.
    pub fn stopped(&self, node: NodeId) -> u32
        ensures { result ≡ stopped_at self.now.cluster node self.now.past }
    {
        self.roster.stopped(node)
    }

    /// How many actors are busy on nodes that are up. Constant time: the nodes are 16 at most.
    pub fn busy_count(&self) -> u64
        ensures { result ≡ busy_count self.now.cluster self.now.past }
    {
        u64::from(self.roster.busy_count())
    }

    /// How many entries wait for the next publish of the node. Constant time.
    pub fn queue_len(&self, node: NodeId) -> usize
        ensures { result ≡ queued node self.now.past }
    {
        self.streams.queue_len(node)
    }

    /// The bulletin with this number, from 0, of the origin's stream: it tells the stream's notice there, and may be written to
    /// bytes. None exactly where the stream has no such number. Constant time.
    pub fn bulletin(&self, origin: NodeId, number: u32) -> Option<&Bulletin>
        ensures told { IfSome result (λ b. TellsNumber self.now.cluster self.now.past origin number b.now) }
        ensures ordered { IfSome result (λ b. IsOrdered b.now) }
        ensures writable { IfSome result (λ b. IsWritable b.now) }
        ensures none { IfNone result (length (stream self.now.cluster origin self.now.past) ≤ number) }
    {
        self.is_lawful();
        bulletins_fit_the_wire();
        self.streams.bulletin(origin, number)
    }

    /// The lowest number with a copy on the link, where it is not closed and ends at a node that is up; None exactly where there
    /// is none. No link leads from a node to itself. Logarithmic time in the numbers that have a copy.
    pub fn link_head(&self, from: NodeId, at: NodeId) -> Option<u32>
        ensures head { from ≢ at → IsHead from at self.now.past result }
        ensures none { from ≡ at → result ≡ None }
    {
        if from == at {
            return None;
        }
        self.traffic.head(from, at)
    }

    /// The lowest actor of the node, of those above the one that is given, whose flush no rule refuses; None exactly where there
    /// is none. Logarithmic time in the number of the node's actors.
    pub fn next_flush(&self, node: NodeId, after: Option<ActorId>) -> Option<ActorId>
        ensures { IsNextFlush self.now.cluster node self.now.past after result }
    {
        self.roster.next_flush(node, after)
    }

    /// The lowest node from which no rule refuses a window of `at`; None exactly where there is none. Constant time.
    pub fn next_window(&self, at: NodeId) -> Option<NodeId>
        ensures { IsNextWindow self.now.cluster at self.now.past result }
    {
        self.traffic.next_window(at)
    }

    /// The lowest node that no rule refuses `at` to remove; None exactly where there is none. Constant time.
    pub fn next_removal(&self, at: NodeId) -> Option<NodeId>
        ensures { IsNextRemoval self.now.cluster at self.now.past result }
    {
        self.traffic.next_removal(at)
    }
}
