//! What the nodes tell.
ghost use Rattle.std.specs.Prelude.{◌≡◌, ◌≢◌, ◌+◌, ◌<◌, ◌≤◌, ◌^◌, not, nat_lt, ℕ, true, false, [], List};
ghost use Rattle.std.specs.Prelude.{length, slice_get, IfErr, IfNone, IfOk, IfSome, OnErr, OnOk};
ghost use Rattle.std.specs.Option.{option_copied};
ghost use Rattle.history_model.specs.declared.events.Event.{Event};
ghost use Rattle.history_model.specs.declared.events.Event.TheVariants.{Flush, Publish, Remove, Window as WindowEvent};
ghost use Rattle.history_model.specs.declared.records.Bulletin.TheVariants as bulletins;
ghost use Rattle.history_model.specs.Cluster.{Cluster};
ghost use Rattle.history_model.specs.Ledgers.{entries_ledger};
ghost use Rattle.history_model.specs.Streams.{is_blank, queue, stream};
ghost use Rattle.history_model.specs.Tells.{IsOrdered};
ghost use Rattle.bulletin_streams.specs.Spelling.{IsSpelling};
ghost use Rattle.delta_graph.specs.declared.fault.DeltaFault.TheVariants.{TableFull};
ghost use Rattle.delta_graph.specs.Sums.{CountsFit, IsFaultOf, named_count};
ghost use Rattle.bulletin_streams.specs.Standing.{AreStreamsOf, SaysLimit, StandAfter, TellsFlush, TellsLink, TellsNumber, queued};
ghost use Rattle.bulletin_streams.specs.StreamState.{Appends, AreAlike, ChangesAt, Publishes, Queues, StreamState, TakesBack, stream_at};
ghost use Rattle.crgc_ids.specs.declared.limits.TheConstants.{MOST_NAMED};

use crate::node_stream::NodeStream;
use crgc_ids::{NoMemory, NodeId, Octets};
use delta_graph::DeltaFault;
use history_model::{Bulletin, Entry, Window};
use std::alloc::Global;
use std::marker::Model;

/// For each of 16 nodes the entries that wait for its next publish, and the bulletins of its stream. It keeps its allocator.
/// Contracts see the list of what the nodes keep, and read it by `stream_at`.
#[derive(Drop)]
pub struct BulletinStreams {
    nodes: Vec<NodeStream>,
}

impl Model for BulletinStreams {
    ghost use Rattle.std.specs.Prelude.{◌≡◌, List, length};
    ghost use Rattle.bulletin_streams.specs.StreamState.{StreamState};

    ghost Value = { List StreamState };

    ghost view = { λ s. s.nodes.items };

    ghost invariant = { λ s. length s.nodes.items ≡ 16 };
}

impl BulletinStreams {
    /// No entry waits, and no stream has a bulletin.
    pub fn new(alloc: Global) -> Result<BulletinStreams, NoMemory>
        ensures blank { IfOk result (λ s. (n : ℕ) → ((stream_at s n).entries ≡ []) × ((stream_at s n).bulletins ≡ [])) }
        ensures stands { IfOk result (λ s. (cl : Cluster) → AreStreamsOf cl [] s) }
    {
        let mut nodes = Vec::new(alloc);
        for _ in 0u8..16 {
            if nodes.push(NodeStream::new(alloc)).is_err() {
                return Err(NoMemory);
            }
        }
        Ok(BulletinStreams { nodes })
    }

    /// Room for one more entry of the node, so that the next `enqueue` may follow. Amortized constant time.
    pub fn reserve_entry(&mut self, node: NodeId) -> Result<(), NoMemory>
        ensures same { AreAlike self.old self.new }
        ensures ok { OnOk result (0 < (stream_at self.new node).entry_room) }
        ensures others { (n : ℕ) → n ≢ node → stream_at self.new n ≡ stream_at self.old n }
    {
        self.nodes[node.get() as usize].reserve_entry()
    }

    /// Room for one more bulletin of the node, so that the next window or Final may follow. Amortized constant time.
    pub fn reserve_bulletin(&mut self, node: NodeId) -> Result<(), NoMemory>
        ensures same { AreAlike self.old self.new }
        ensures ok { OnOk result (0 < (stream_at self.new node).bulletin_room) }
        ensures others { (n : ℕ) → n ≢ node → stream_at self.new n ≡ stream_at self.old n }
    {
        self.nodes[node.get() as usize].reserve_bulletin()
    }

    /// A flush: the entry comes last into the queue of its actor's node, for which there is room. Constant time.
    pub fn enqueue(&mut self, entry: Entry)
        requires room { 0 < (stream_at self.old entry.actor.node).entry_room }
        ensures change { ChangesAt self.old self.new entry.actor.node (λ s t. Queues s t entry) }
        ensures stands { (cl : Cluster) (p : List Event) → TellsFlush cl p entry → StandAfter cl (Flush entry.actor) p self.old self.new }
    {
        self.nodes[entry.actor.node().get() as usize].enqueue(entry);
    }

    /// The last entry leaves the queue of the node, as if it had not come. Constant time.
    pub fn take_back(&mut self, node: NodeId)
        ensures change { ChangesAt self.old self.new node TakesBack }
        ensures undoes { (before : List StreamState) (e : Entry) → ChangesAt before self.old node (λ s t. Queues s t e) → AreAlike before self.new }
    {
        self.nodes[node.get() as usize].take_back();
    }

    /// The queue of the node becomes one Delta, last in its stream: the sum of the entries. `TableFull` exactly where it would
    /// name more than 200,000 different actors. After an error all is as before. Time in proportion to n log n for n rows of
    /// the entries.
    pub fn publish(&mut self, node: NodeId) -> Result<(), DeltaFault>
        requires fits { CountsFit (entries_ledger (stream_at self.old node).entries) }
        ensures change { OnOk result (ChangesAt self.old self.new node (Publishes node)) }
        ensures named { OnOk result (named_count (stream_at self.old node).entries ≤ MOST_NAMED) }
        ensures fault { IfErr result (IsFaultOf (stream_at self.old node).entries) }
        ensures err { OnErr result (AreAlike self.old self.new) }
        ensures stands { OnOk result ((cl : Cluster) (p : List Event) → StandAfter cl (Publish node) p self.old self.new) }
        ensures within { OnOk result (SaysLimit self.old node false) }
        ensures over { IfErr result (λ f. f ≡ TableFull → SaysLimit self.old node true) }
    {
        self.nodes[node.get() as usize].publish(node)
    }

    /// Whether the next publish of the node would pass the limit: its Delta would name more than 200,000 different actors.
    /// Time in proportion to n log n for n rows of the entries.
    pub fn names_too_many(&self, node: NodeId) -> Result<bool, NoMemory>
        requires fits { CountsFit (entries_ledger (stream_at self.now node).entries) }
        ensures value { IfOk result (λ b. b ≡ nat_lt MOST_NAMED (named_count (stream_at self.now node).entries)) }
        ensures told { IfOk result (SaysLimit self.now node) }
    {
        self.nodes[node.get() as usize].names_too_many(node)
    }

    /// The window comes last into the stream of its node, for which there is room. Constant time.
    pub fn append_window(&mut self, window: Window)
        requires room { 0 < (stream_at self.old window.at).bulletin_room }
        ensures change { ChangesAt self.old self.new window.at (λ s t. Appends s t (bulletins.Window window)) }
        ensures stands { (cl : Cluster) (p : List Event) → TellsLink p window
            → StandAfter cl (WindowEvent window.at window.from) p self.old self.new }
    {
        self.nodes[window.at.get() as usize].append_window(window);
    }

    /// The Final comes last into the stream of its node, for which there is room. Constant time.
    pub fn append_final(&mut self, window: Window)
        requires room { 0 < (stream_at self.old window.at).bulletin_room }
        ensures change { ChangesAt self.old self.new window.at (λ s t. Appends s t (bulletins.Final window)) }
        ensures stands { (cl : Cluster) (p : List Event) → TellsLink p window → StandAfter cl (Remove window.at window.from) p self.old self.new }
    {
        self.nodes[window.at.get() as usize].append_final(window);
    }

    /// How many entries wait for the next publish of the node. Constant time.
    pub fn queue_len(&self, node: NodeId) -> usize
        ensures value { result ≡ length (stream_at self.now node).entries }
        ensures told { (cl : Cluster) (h : List Event) → AreStreamsOf cl h self.now → result ≡ queued node h }
    {
        self.nodes[node.get() as usize].queue_len()
    }

    /// Whether an entry waits. Constant time.
    pub fn has_entries(&self, node: NodeId) -> bool
        ensures value { result ≡ nat_lt 0 (length (stream_at self.now node).entries) }
        ensures told { (cl : Cluster) (h : List Event) → AreStreamsOf cl h self.now → result ≡ not (is_blank (queue cl node h)) }
    {
        0 < self.queue_len(node)
    }

    /// How many bulletins the stream of the node has, of which 32 bits can count so many. Constant time.
    pub fn stream_len(&self, node: NodeId) -> u32
        requires { length (stream_at self.now node).bulletins < 2 ^ 32 }
        ensures value { result ≡ length (stream_at self.now node).bulletins }
        ensures told { (cl : Cluster) (h : List Event) → AreStreamsOf cl h self.now → result ≡ length (stream cl node h) }
    {
        self.nodes[node.get() as usize].len() as u32
    }

    /// The bulletin with this number, from 0, of the origin's stream; None exactly where it has no such number. Constant time.
    pub fn bulletin(&self, origin: NodeId, number: u32) -> Option<&Bulletin>
        ensures value { option_copied result ≡ slice_get (stream_at self.now origin).bulletins number }
        ensures ordered { IfSome result (λ b. IsOrdered b.now) }
        ensures told { (cl : Cluster) (h : List Event) → AreStreamsOf cl h self.now → IfSome result (λ b. TellsNumber cl h origin number b.now) }
        ensures none { (cl : Cluster) (h : List Event) → AreStreamsOf cl h self.now → IfNone result (length (stream cl origin h) ≤ number) }
    {
        self.nodes[origin.get() as usize].bulletin(number as usize)
    }

    /// The spelling of the bulletin with this number of the origin's stream, if it is kept. Constant time.
    pub fn spelling(&self, origin: NodeId, number: u32) -> Option<&Octets>
        ensures { IfSome result (λ bytes. IfSome (slice_get (stream_at self.now origin).bulletins number) (λ b. IsSpelling b bytes.now)) }
    {
        self.nodes[origin.get() as usize].spelling(number as usize)
    }

    /// These bytes, the spelling of the bulletin with this number of the origin's stream, if there is one, are kept. Constant time.
    pub fn keep_spelling(&mut self, origin: NodeId, number: u32, bytes: Octets)
        requires { IfSome (slice_get (stream_at self.old origin).bulletins number) (λ b. IsSpelling b bytes) }
        ensures { self.new ≡ self.old }
    {
        self.nodes[origin.get() as usize].keep_spelling(number as usize, bytes);
    }

    /// The spelling of the bulletin with this number of the origin's stream is kept no longer. Constant time.
    pub fn forget_spelling(&mut self, origin: NodeId, number: u32)
        ensures { self.new ≡ self.old }
    {
        self.nodes[origin.get() as usize].forget_spelling(number as usize);
    }

    /// The allocator.
    pub fn alloc(&self) -> Global {
        *self.nodes.allocator()
    }
}
