//! The shadow graph of a collector.
ghost use Rattle.std.specs.Prelude.{◌≡◌, ◌≢◌, ◌<◌, ◌≤◌, ◌-ℤ◌, pos, true, IfSome, OnErr, OnOk, length, replicate, slice_get, slice_index, []};
ghost use Rattle.std.specs.Option.{is_some};
ghost use Rattle.history_model.specs.Cluster.{Cluster};
ghost use Rattle.history_model.specs.Ledgers.{IsInOrder, delta_ledger, window_ledger};
ghost use Rattle.history_model.specs.Tells.{origin_of};
ghost use Rattle.history_model.specs.declared.records.Bulletin.TheVariants as bulletins;
ghost use Rattle.history_model.specs.Folds.{Fold};
ghost use Rattle.shadow_table.specs.Shadows.{is_named, no_shadows, place_in};
ghost use Rattle.shadow_graph.specs.Graph.{is_logging, lost_in};
ghost use Rattle.shadow_graph.specs.Places.{ArePlaced};
ghost use Rattle.shadow_graph.specs.Seen.{Drops, is_dropped, is_known, seen_edge, seen_shadow};
ghost use Rattle.shadow_graph.specs.Stands.{IsGraphOf};
ghost use Rattle.shadow_graph.specs.Taken.{ClosesLink, FoldsIn, IsLinked, TakesIn};
ghost use Rattle.crgc_ids.specs.declared.limits.TheConstants.{MOST_EVENTS};

mod by_place;
mod known;
mod owners;
mod same;

use crate::found::{blank, edge_between, shadow_of};
use crgc_ids::{ActorId, Cut, NoMemory, NodeId, NodeSet};
use edge_table::EdgeTable;
use history_model::{Bulletin, Delta, Window};
use membership::Finals;
use shadow_rows::{RowNumbers, add_delta, add_window, settle_lost};
use shadow_table::{Shadow, ShadowTable};
use std::alloc::Global;
use std::marker::Model;
use undo_log::UndoLog;

/// What all folded bulletins tell of actors and of the references between them. It keeps its allocator, and from fold to fold
/// up to 8 KB of room for the numbers of edges. Contracts see the shadows, the edges, the log of what each node told and what others
/// admitted from it, the Finals and the cut. Where the cluster has one node alone, nothing is logged.
#[derive(Drop)]
pub struct ShadowGraph {
    alloc: Global,
    numbers: RowNumbers,
    shadows: ShadowTable,
    edges: EdgeTable,
    log: UndoLog,
    finals: Finals,
    lost: NodeSet,
    cut: Cut,
}

impl Model for ShadowGraph {
    ghost use Rattle.std.specs.Prelude.{length};
    ghost use Rattle.shadow_graph.specs.Graph.{Graph};
    ghost use Rattle.shadow_graph.specs.Kept.{IsKept};

    ghost Value = { Graph };

    ghost view = { λ g. record {
      shadows = g.shadows;
      edges = record { pairs = g.edges.pairs; edges = g.edges.edges; places = length g.shadows.names };
      log = g.log;
      finals = g.finals;
      cut = g.cut;
    } };

    ghost invariant = { λ g. IsKept g.shadows g.edges g.log g.finals g.lost g.cut };
}

impl ShadowGraph {
    /// The graph of a cluster of so many nodes, with nothing folded.
    pub fn new(alloc: Global, nodes: u8) -> ShadowGraph
        requires some { 1 ≤ nodes }
        requires in_range { nodes ≤ 16 }
        ensures stands { (cl : Cluster) → cl.nodes ≡ nodes → IsGraphOf cl (λ o. []) result }
        ensures nodes { result.finals.nodes ≡ nodes }
        ensures cut { result.cut ≡ replicate 16 0 }
        ensures shadows { result.shadows ≡ no_shadows }
    {
        let finals = Finals::new(nodes);
        ShadowGraph {
            alloc,
            numbers: RowNumbers::new(alloc),
            shadows: ShadowTable::new(alloc),
            edges: EdgeTable::new(alloc),
            log: UndoLog::new(alloc),
            finals,
            lost: finals.lost(),
            cut: Cut::zero(),
        }
    }

    /// The bulletin of the node, the next one of its stream, is folded: where the graph stood for a fold, it stands for the
    /// fold with it. A Final that makes nodes lost takes back what they told and puts in what others admitted from them.
    /// After `NoMemory` all is as before. Amortized time in proportion to n log n for n rows, and logarithmic
    /// in the number of edges for each row and for each pair noted of the newly lost nodes.
    pub fn fold(&mut self, origin: NodeId, b: &Bulletin) -> Result<(), NoMemory>
        requires of_origin { origin_of b.now ≡ origin }
        requires in_range { origin < self.old.finals.nodes }
        requires linked { IsLinked self.old.finals.nodes b.now }
        requires fewer { slice_index self.old.cut origin < MOST_EVENTS }
        ensures ok { OnOk result (FoldsIn origin b.now self.old self.new) }
        ensures err { OnErr result (self.new ≡ self.old) }
    {
        match b {
            Bulletin::Delta(delta) => self.take_delta(delta),
            Bulletin::Window(window) => self.take_window(window),
            Bulletin::Final(window) => self.take_final(window),
        }
    }

    /// The actor, which was named, is dropped: nothing of it is known from then on, and nobody's edge to it counts. The edges
    /// that lead from it stay, and what is folded later is counted as ever. Constant time.
    pub fn drop_actor(&mut self, actor: ActorId)
        requires { is_named self.old.shadows.names actor ≡ true }
        ensures drops { Drops actor self.old self.new }
        ensures stands { (cl : Cluster) (f : Fold) → IsGraphOf cl f self.old → IsGraphOf cl f self.new }
    {
        self.shadows.drop_actor(actor);
    }

    /// How many actors were named.
    pub fn place_count(&self) -> u32
        ensures count { result ≡ length self.now.shadows.names }
        ensures placed { ArePlaced self.now }
    {
        let _pairs = self.edges.edge_count();
        self.shadows.place_count()
    }

    /// The place of the actor, its number in the order of naming; None exactly where it was never named. Constant time.
    pub fn place_of(&self, actor: ActorId) -> Option<u32>
        ensures place { IfSome result (λ place. place ≡ place_in self.now.shadows.names actor) }
        ensures within { IfSome result (λ place. place < length self.now.shadows.names) }
        ensures found { is_some result ≡ is_named self.now.shadows.names actor }
    {
        self.shadows.place_of(actor)
    }

    /// The actor at the place; None exactly at `place_count` and above.
    pub fn actor_at(&self, place: u32) -> Option<ActorId>
        ensures { result ≡ slice_get self.now.shadows.names place }
    {
        self.shadows.actor_at(place)
    }

    /// Whether the actor was dropped. Constant time.
    pub fn is_dropped(&self, actor: ActorId) -> bool
        ensures { result ≡ is_dropped self.now actor }
    {
        shadow_of(&self.shadows, actor).dropped
    }

    /// Whether some folded bulletin named the actor, and it was not dropped. Constant time.
    pub fn is_known(&self, actor: ActorId) -> bool
        ensures { result ≡ is_known self.now actor }
    {
        self.shadows.place_of(actor).is_some() && !self.is_dropped(actor)
    }

    /// The flags (busy, root) of the actor's last own entry; None exactly where none is folded or the actor was dropped.
    /// Constant time.
    pub fn flags(&self, actor: ActorId) -> Option<(bool, bool)>
        ensures { result ≡ (seen_shadow self.now actor).flags }
    {
        self.seen_shadow(actor).flags
    }

    /// How many messages the actor took; 0 where it was dropped. Constant time.
    pub fn received(&self, actor: ActorId) -> u64
        ensures { result ≡ (seen_shadow self.now actor).received }
    {
        self.seen_shadow(actor).received
    }

    /// How many messages to the actor were told by Deltas of nodes that are not lost; 0 where it was dropped. Constant time.
    pub fn told(&self, actor: ActorId) -> u64
        ensures { result ≡ (seen_shadow self.now actor).told }
    {
        self.seen_shadow(actor).told
    }

    /// How many messages to the actor were admitted from lost nodes; 0 where it was dropped. Constant time.
    pub fn admitted(&self, actor: ActorId) -> u64
        ensures { result ≡ (seen_shadow self.now actor).admitted }
    {
        self.seen_shadow(actor).admitted
    }

    /// The messages that the actor took, less those that were told and those that were admitted. Constant time.
    pub fn balance(&self, actor: ActorId) -> i64
        ensures { let s = seen_shadow self.now actor in result ≡ (pos s.received -ℤ pos s.told) -ℤ pos s.admitted }
    {
        let shadow = self.seen_shadow(actor);
        shadow.received as i64 - shadow.told as i64 - shadow.admitted as i64
    }

    /// The references to the target that the owner was given, less those that it released; 0 where the target was dropped.
    /// At most 2 * 8 looks at lists, and where that does not tell, time logarithmic in their number.
    pub fn edge(&self, owner: ActorId, target: ActorId) -> i64
        ensures { result ≡ (seen_edge self.now owner target).count }
    {
        if shadow_of(&self.shadows, target).dropped {
            return 0;
        }
        edge_between(&self.shadows, &self.edges, owner, target).count
    }

    /// The nodes that are lost by the Finals that are folded.
    pub fn lost(&self) -> NodeSet
        ensures { result ≡ lost_in self.now }
    {
        self.lost
    }

    /// The shadow of the actor, or a blank one where it was dropped or never named.
    fn seen_shadow(&self, actor: ActorId) -> Shadow
        ensures value { result ≡ seen_shadow self.now actor }
        ensures received { result.received ≤ 4611686018427387904 }
        ensures told { result.told ≤ 4611686018427387904 }
        ensures admitted { result.admitted ≤ 4611686018427387904 }
    {
        let shadow = shadow_of(&self.shadows, actor);
        if shadow.dropped {
            return blank();
        }
        shadow
    }

    /// Whether bulletins are logged: in a cluster of one node none is ever lost.
    fn is_logging(&self) -> bool
        ensures { result ≡ is_logging self.now }
    {
        self.finals.nodes() > 1
    }

    /// The Delta is taken in. After `NoMemory` all is as before. Amortized time in proportion to n log n for n
    /// rows, and logarithmic in the number of edges for each.
    fn take_delta(&mut self, delta: &Delta) -> Result<(), NoMemory>
        requires in_range { delta.now.node < 16 }
        requires fewer { slice_index self.old.cut delta.now.node < MOST_EVENTS }
        ensures ok { OnOk result (TakesIn delta.now.node (bulletins.Delta delta.now) self.old self.new) }
        ensures finals { self.new.finals ≡ self.old.finals }
        ensures err { OnErr result (self.new ≡ self.old) }
        ensures ordered { IsInOrder (delta_ledger delta.now) }
        ensures few { self.old.finals.nodes ≤ 16 }
        ensures long { length self.old.cut ≡ 16 }
    {
        let counts = !self.lost.contains(delta.node);
        let logs = self.is_logging();
        match add_delta(
            &mut self.numbers,
            &mut self.shadows,
            &mut self.edges,
            &mut self.log,
            delta,
            counts,
            logs,
        ) {
            Ok(()) => {
                self.cut.raise(delta.node);
                Ok(())
            }
            Err(_) => Err(NoMemory),
        }
    }

    /// The window is taken in. After `NoMemory` all is as before. Amortized time in proportion to n log n for n
    /// rows, and logarithmic in the number of edges for each.
    fn take_window(&mut self, window: &Window) -> Result<(), NoMemory>
        requires in_range { window.now.at < 16 }
        requires fewer { slice_index self.old.cut window.now.at < MOST_EVENTS }
        ensures ok { OnOk result (TakesIn window.now.at (bulletins.Window window.now) self.old self.new) }
        ensures ok_final { OnOk result (TakesIn window.now.at (bulletins.Final window.now) self.old self.new) }
        ensures finals { self.new.finals ≡ self.old.finals }
        ensures err { OnErr result (self.new ≡ self.old) }
        ensures ordered { IsInOrder (window_ledger window.now) }
        ensures few { self.old.finals.nodes ≤ 16 }
        ensures long { length self.old.cut ≡ 16 }
    {
        let counts = self.lost.contains(window.from);
        let logs = self.is_logging();
        match add_window(
            &mut self.numbers,
            &mut self.shadows,
            &mut self.edges,
            &mut self.log,
            window,
            counts,
            logs,
        ) {
            Ok(()) => {
                self.cut.raise(window.at);
                Ok(())
            }
            Err(_) => Err(NoMemory),
        }
    }

    /// The Final is taken in, its link noted, and the newly lost nodes settled. After `NoMemory` all is as before.
    fn take_final(&mut self, window: &Window) -> Result<(), NoMemory>
        requires at { window.now.at < self.old.finals.nodes }
        requires from { window.now.from < self.old.finals.nodes }
        requires differ { window.now.from ≢ window.now.at }
        requires in_range { window.now.at < 16 }
        requires fewer { slice_index self.old.cut window.now.at < MOST_EVENTS }
        ensures ok { OnOk result (FoldsIn window.now.at (bulletins.Final window.now) self.old self.new) }
        ensures err { OnErr result (self.new ≡ self.old) }
    {
        match self.take_window(window) {
            Ok(()) => {
                self.close(window.from, window.at);
                Ok(())
            }
            Err(_) => Err(NoMemory),
        }
    }

    /// The Final of the link is noted, and the newly lost nodes are settled.
    fn close(&mut self, from: NodeId, at: NodeId)
        requires source { from < self.old.finals.nodes }
        requires destination { at < self.old.finals.nodes }
        requires differ { from ≢ at }
        ensures { ClosesLink from at self.old self.new }
    {
        let before = self.lost;
        self.finals.note_final(from, at);
        let after = self.finals.lost();
        if after == before {
            return;
        }
        self.lost = after;
        settle_lost(&mut self.shadows, &mut self.edges, &self.log, before, after);
    }
}
