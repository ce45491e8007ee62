//! The collector.
ghost use Rattle.std.specs.Prelude.{◌≡◌, ◌++◌, ◌+◌, ◌<◌, ◌≤◌, true, false, None, Ok, IfErr, IfOk, OnErr, OnOk, length, sum};
ghost use Rattle.std.specs.List.{AllByRecursion};
ghost use Rattle.crgc_ids.specs.Actor.{Actor};
ghost use Rattle.gossip_core.specs.Gossip.{IsFirstMissing, kept_at};
ghost use Rattle.pseudoroot_trace.specs.Marked.{IsSweepBy};
ghost use Rattle.pseudoroot_trace.specs.Traced.{is_marked_in};
ghost use Rattle.shadow_graph.specs.Seen.{is_dropped};
ghost use Rattle.shadow_table.specs.Shadows.{is_named};
ghost use Rattle.collector.specs.Collected.{IsNew, IsSettled, cut_of, has_number, node_count, was_stopped};
ghost use Rattle.collector.specs.Refusals.{IsFit, IsRefusal, read_as};
ghost use Rattle.collector.specs.Sweeping.{Compacts, Finds, SetsFlags, Sweeps};
ghost use Rattle.collector.specs.Taking.{Admits, Folds, IsAnswer, IsTaken, Keeps, LeavesAsWas, Takes};
ghost use Rattle.collector.specs.Traced.{DropsAll, HaveFallen, TakesSome};
ghost use Rattle.crgc_ids.specs.declared.limits.TheConstants.{MOST_EVENTS};

use crate::read::{TakeFault, read_whole};
use crate::rounds::find_stops_in_rounds;
use crate::stopped::{make_room, set_all};
use crate::stops::{find_stopped, stops_of};
use crgc_ids::{ActorId, Cut, NoMemory, NodeId};
use gossip_core::GossipCore;
use graph_wire::Spare;
use history_model::{Bulletin, StopList, Verdict};
use pseudoroot_trace::{Marks, TracedGraph};
use shadow_graph::ShadowGraph;
use std::alloc::Global;
use std::marker::Model;
use std::thread::Threads;

/// What became of a bulletin: so many were folded in this call, from 1; none was, and its number is above the cut of its
/// origin; none was, and its number is below it.
#[derive(Clone, Copy, PartialEq, Eq, Debug)]
pub enum Taken {
    Folded(u32),
    Waiting,
    Old,
}

/// The collector of one node. It knows nothing but the bulletins that it was given. It keeps its allocator, the marks of its last
/// sweep, room for marks in rounds, and whom it stopped and did not drop yet. Contracts see its node, the bulletins that wait and the
/// cut, the shadow graph, and whom it stopped.
#[derive(Drop)]
pub struct Collector {
    alloc: Global,
    node: NodeId,
    nodes: u8,
    order: GossipCore,
    graph: TracedGraph,
    stopped: Vec<bool>,
    gone: Vec<ActorId>,
    marks: Marks,
    spare: Spare,
}

impl Model for Collector {
    ghost use Rattle.std.specs.Prelude.{◌≡◌};
    ghost use Rattle.collector.specs.Collected.{Collected};
    ghost use Rattle.collector.specs.Kept.{IsKept};
    ghost use Rattle.collector.specs.Traced.{AreGone, NoneIsLeft};

    ghost Value = { Collected };

    ghost view = { λ c. record { node = c.node; order = c.order; graph = c.graph.graph; stopped = c.stopped.items } };

    ghost invariant = { λ c. record {
      nodes : c.nodes ≡ c.order.nodes;
      kept : IsKept (record { node = c.node; order = c.order; graph = c.graph.graph; stopped = c.stopped.items });
      left : NoneIsLeft c.graph c.node c.stopped.items;
      gone : AreGone (record { node = c.node; order = c.order; graph = c.graph.graph; stopped = c.stopped.items }) c.gone.items;
    } };
}

impl Collector {
    /// The collector of a node of a cluster of so many nodes, which was given nothing and stopped nobody.
    pub fn new(alloc: Global, node: NodeId, nodes: u8) -> Result<Collector, NoMemory>
        requires below { node < nodes }
        requires in_range { nodes ≤ 16 }
        ensures { IfOk result (λ c. IsNew node nodes c) }
    {
        let order = GossipCore::new(alloc, nodes)?;
        Ok(Collector {
            alloc,
            node,
            nodes,
            order,
            graph: TracedGraph::new(alloc, nodes),
            stopped: Vec::new(alloc),
            gone: Vec::new(alloc),
            marks: Marks::new(alloc),
            spare: Spare::new(alloc),
        })
    }

    /// The node whose collector it is.
    pub fn node(&self) -> NodeId
        ensures { result ≡ self.now.node }
    {
        self.node
    }

    /// How many nodes the cluster has.
    pub fn nodes(&self) -> u8
        ensures { result ≡ node_count self.now }
    {
        self.nodes
    }

    /// How many bulletins of each node are folded.
    pub fn cut(&self) -> Cut
        ensures { result ≡ self.now.order.cut }
    {
        self.order.cut()
    }

    /// The first number of the origin from its cut on of which no bulletin waits. Logarithmic time in the number of those that
    /// wait, for each number between the two.
    pub fn wants(&self, origin: NodeId) -> u32
        ensures { IsFirstMissing self.now.order origin result }
    {
        self.order.wants(origin)
    }

    /// Whether the origin's bulletin of this number was taken: it is folded, or waits. Logarithmic time in the number of those
    /// that wait.
    pub fn has_taken(&self, origin: NodeId, number: u32) -> bool
        ensures { result ≡ has_number self.now origin number }
    {
        self.order.was_offered(origin, number)
    }

    /// What is folded.
    pub fn graph(&self) -> &ShadowGraph
        ensures { result.now ≡ self.now.graph }
    {
        self.graph.graph()
    }

    /// Whom it dropped it has stopped. It does nothing: its contract is the law.
    pub fn is_lawful(&self)
        ensures { (a : Actor) → is_dropped self.now.graph a ≡ true → was_stopped self.now a ≡ true }
    {
        let _graph = &self.graph;
    }

    /// The bytes of the origin's bulletin of this number are taken. It waits until all before it are folded, and then it is
    /// folded, with those that waited for it. One of a number that was taken before is ignored. Bytes are refused that are no
    /// bulletin, have more after it, or have one that is foreign; then nothing changes. After `NoMemory` the bulletin may be
    /// kept, and some that were ready folded. Time in proportion to the bytes, and to what the folded bulletins take.
    pub fn take(&mut self, origin: NodeId, number: u32, bytes: &[u8]) -> Result<Taken, TakeFault>
        requires origin { origin < node_count self.old }
        requires number { number < MOST_EVENTS }
        ensures answer { IfOk result (λ taken. IsAnswer origin number self.old self.new taken) }
        ensures taken { OnOk result (IsTaken origin number self.new) }
        ensures read { OnOk result ((b : Bulletin) × (read_as (node_count self.old) origin bytes.now ≡ Ok b)) }
        ensures refused { IfErr result (λ e. IsRefusal e (read_as (node_count self.old) origin bytes.now)) }
        ensures unchanged { IfErr result (λ e. LeavesAsWas e self.old self.new) }
        ensures takes { Takes origin number bytes.now self.old self.new }
    {
        let b = match read_whole(&mut self.spare, self.nodes, origin, bytes) {
            Ok(b) => b,
            Err(fault) => return Err(fault),
        };
        let first = match self.admit(origin, number, b) {
            Ok(first) => first,
            Err(_) => return Err(TakeFault::NoMemory),
        };
        match self.fold_ready() {
            Ok(0) if first == 0 => Ok(self.unfolded(origin, number)),
            Ok(rest) => Ok(Taken::Folded(first + rest)),
            Err(_) => Err(TakeFault::NoMemory),
        }
    }

    /// The answer where no bulletin was folded.
    fn unfolded(&self, origin: NodeId, number: u32) -> Taken
        requires { IsTaken origin number self.now }
        ensures { IsAnswer origin number self.now self.now result }
    {
        if number < self.order.cut().at(origin) {
            Taken::Old
        } else {
            Taken::Waiting
        }
    }

    /// The bulletin is folded where it is the next one of its origin and none of its number waits; else it waits, unless one of its
    /// number was taken before. How many were folded is told. After `NoMemory` all is as before.
    fn admit(&mut self, origin: NodeId, number: u32, b: Bulletin) -> Result<u32, NoMemory>
        requires origin { origin < node_count self.old }
        requires number { number < MOST_EVENTS }
        requires fits { IsFit (node_count self.old) origin b }
        ensures admits { OnOk result (Admits self.old self.new origin number b) }
        ensures count { IfOk result (λ n. sum self.new.order.cut ≡ sum self.old.order.cut + n) }
        ensures err { OnErr result (self.new ≡ self.old) }
    {
        let is_next = number == self.cut().at(origin);
        if is_next && !self.has_taken(origin, number) {
            self.fold_unkept(origin, &b)?;
            self.spare.keep(b);
            return Ok(1);
        }
        self.keep(origin, number, b)?;
        Ok(0)
    }

    /// The bulletin, the next one of its origin, is folded without waiting. After `NoMemory` all is as before. Beside the fold it
    /// takes constant time and no memory.
    fn fold_unkept(&mut self, origin: NodeId, b: &Bulletin) -> Result<(), NoMemory>
        requires origin { origin < node_count self.old }
        requires fewer { cut_of self.old origin < MOST_EVENTS }
        requires missing { kept_at self.old.order origin (cut_of self.old origin) ≡ None }
        requires fits { IsFit (node_count self.old) origin b.now }
        ensures admits { OnOk result (Admits self.old self.new origin (cut_of self.old origin) b.now) }
        ensures one { OnOk result (sum self.new.order.cut ≡ sum self.old.order.cut + 1) }
        ensures err { OnErr result (self.new ≡ self.old) }
    {
        if self.graph.fold(origin, b).is_err() {
            return Err(NoMemory);
        }
        self.order.pass(origin);
        Ok(())
    }

    /// The bulletin waits, unless one of its number was taken before. After `NoMemory` all is as before.
    fn keep(&mut self, origin: NodeId, number: u32, b: Bulletin) -> Result<(), NoMemory>
        requires origin { origin < node_count self.old }
        requires number { number < MOST_EVENTS }
        requires fits { IsFit (node_count self.old) origin b }
        ensures ok { OnOk result (Keeps self.old self.new origin number b) }
        ensures err { OnErr result (self.new ≡ self.old) }
    {
        if self.order.offer(origin, number, b).is_err() {
            return Err(NoMemory);
        }
        Ok(())
    }

    /// Whatever is ready is folded, and how many bulletins that were is told. After `NoMemory` some of them may be folded.
    fn fold_ready(&mut self) -> Result<u32, NoMemory>
        ensures folds { Folds self.old self.new }
        ensures count { IfOk result (λ n. sum self.new.order.cut ≡ sum self.old.order.cut + n) }
        ensures bounded { sum self.new.order.cut ≤ 16000000 }
        ensures settled { OnOk result (IsSettled self.new) }
    {
        let mut count = 0;
        while self.fold_next()? {
            count += 1;
        }
        Ok(count)
    }

    /// The first bulletin that is ready is folded; false where none is. After `NoMemory` all is as before.
    fn fold_next(&mut self) -> Result<bool, NoMemory>
        ensures folds { Folds self.old self.new }
        ensures one { result ≡ Ok true → sum self.new.order.cut ≡ sum self.old.order.cut + 1 }
        ensures bounded { sum self.new.order.cut ≤ 16000000 }
        ensures fewer { result ≡ Ok true → length self.new.order.kept < length self.old.order.kept }
        ensures none { result ≡ Ok false → IsSettled self.new }
        ensures same { result ≡ Ok false → self.new ≡ self.old }
        ensures err { OnErr result (self.new ≡ self.old) }
    {
        let (origin, b) = match self.order.first_ready() {
            Some(ready) => ready,
            None => return Ok(false),
        };
        if self.graph.fold(origin, b).is_err() {
            return Err(NoMemory);
        }
        self.order.advance(origin);
        Ok(true)
    }

    /// The verdict of the node's sweep at the cut: it stops each actor of its node that is known, not on a lost node, not marked
    /// and not stopped before, and says why. Whom it stops is remembered. After `NoMemory` all is as before. Constant time where
    /// nothing was folded or dropped since the last sweep; else time in proportion to what the folds since then touched and what
    /// hung on it, with all edges of these actors, also those of references that were given up, times a logarithm at most. Linear
    /// time in the graph where a node was newly lost, or where the last sweep ran out of memory.
    pub fn sweep(&mut self) -> Result<Verdict, NoMemory>
        requires { IsSettled self.old }
        ensures ok { IfOk result (Sweeps self.old self.new) }
        ensures err { OnErr result (self.new ≡ self.old) }
    {
        self.graph.sweep()?;
        let stopped = self.stopped.as_slice();
        let (found, stops) = find_stops(self.alloc, &mut self.graph, self.node, stopped)?;
        remember(&mut self.stopped, &mut self.gone, found.as_slice())?;
        self.graph.keep_marks();
        Ok(Verdict {
            node: self.node,
            cut: self.order.cut(),
            lost: self.graph.graph().lost(),
            stops,
        })
    }

    /// The verdict that `sweep` gives, by marks that are made anew, in rounds: in each a thread for each of so many parts of the
    /// graph, where one can be made, marks its actors by the marks of the round before. After `NoMemory` all is as before. A round
    /// takes linear time in the graph, shared by the threads, on average; there are at most as many rounds as actors, and one. The
    /// marks of the last `sweep` stay for the next one.
    pub fn sweep_rounds<R: Threads + Sync>(
        &mut self,
        rt: &R,
        parts: u32,
    ) -> Result<Verdict, NoMemory>
        requires settled { IsSettled self.old }
        requires some { 1 ≤ parts }
        requires in_range { parts ≤ 32 }
        ensures ok { IfOk result (Sweeps self.old self.new) }
        ensures err { OnErr result (self.new ≡ self.old) }
    {
        let stopped = self.stopped.as_slice();
        let (found, stops) = find_stops_in_rounds(
            rt,
            self.alloc,
            self.graph.graph(),
            &mut self.marks,
            self.node,
            stopped,
            parts,
        )?;
        let actors = found.as_slice();
        remember(&mut self.stopped, &mut self.gone, actors)?;
        let lost = self.graph.graph().lost();
        Ok(Verdict {
            node: self.node,
            cut: self.order.cut(),
            lost,
            stops,
        })
    }

    /// Whom this collector stopped is dropped from its graph: later verdicts are the same without them. It takes no memory.
    /// Linear time in the number of actors that it stopped and did not drop yet.
    pub fn compact(&mut self)
        ensures { Compacts self.old self.new }
    {
        drop_all(&mut self.graph, self.gone.as_slice());
        self.gone.clear();
    }
}

/// The actors that a sweep by the node stops now, rising, and their stops, where these were stopped before.
fn find_stops(
    alloc: Global,
    graph: &mut TracedGraph,
    node: NodeId,
    stopped: &[bool],
) -> Result<(Vec<ActorId>, StopList), NoMemory>
    requires sweep { IsSweepBy graph.old.graph (is_marked_in graph.old) }
    requires fallen { HaveFallen graph.old node stopped.now }
    ensures finds { IfOk result (λ r. Finds graph.old.graph (is_marked_in graph.old) node stopped.now r.0.items r.1) }
    ensures takes { TakesSome graph.old graph.new }
{
    let found = find_stopped(alloc, graph, node, stopped)?;
    let stops = stops_of(alloc, graph.graph(), found.as_slice())?;
    Ok((found, stops))
}

/// The actors are stopped, and to be dropped. After `NoMemory` nothing changes.
fn remember(
    stopped: &mut Vec<bool>,
    gone: &mut Vec<ActorId>,
    found: &[ActorId],
) -> Result<(), NoMemory>
    ensures sets { OnOk result (SetsFlags found.now stopped.old.items stopped.new.items) }
    ensures gone { OnOk result (gone.new.items ≡ gone.old.items ++ found.now) }
    ensures err { OnErr result ((stopped.new.items ≡ stopped.old.items) × (gone.new.items ≡ gone.old.items)) }
{
    if gone.reserve(found.len()).is_err() {
        return Err(NoMemory);
    }
    make_room(stopped, found)?;
    set_all(stopped, found);
    gone.extend_from_slice(found).unwrap();
    Ok(())
}

/// The actors are dropped. Linear time in their number.
fn drop_all(graph: &mut TracedGraph, gone: &[ActorId])
    requires { AllByRecursion (λ a. is_named graph.old.graph.shadows.names a ≡ true) gone.now }
    ensures { DropsAll gone.now graph.old graph.new }
{
    for actor in gone {
        graph.drop_actor(*actor);
    }
}
