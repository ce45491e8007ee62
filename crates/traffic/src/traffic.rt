//! The traffic between the actors of a cluster.
ghost use Rattle.std.specs.Prelude.{◌≡◌, ◌≢◌, ◌+◌, ◌<◌, ◌≤◌, ◌^◌, ◌&&◌, not, ℕ, [], Bool, IfNone, IfOk, IfSome, List, None, OnErr, OnOk, OnSome, Some, length, slice_get, sum_by, true, false};
ghost use Rattle.std.specs.Option.{option_copied, option_map};
ghost use Rattle.crgc_ids.specs.Nodes.{nodes_below};
ghost use Rattle.history_model.specs.declared.events.Event.{Event};
ghost use Rattle.history_model.specs.declared.events.Event.TheVariants.{Admit, Crash, Lose, Remove, Repeat, Rest, Send, Take, Wake, Window as WindowEvent};
ghost use Rattle.history_model.specs.Cluster.{Cluster};
ghost use Rattle.history_model.specs.Graph.{rising_actors};
ghost use Rattle.history_model.specs.Live.{live_count};
ghost use Rattle.history_model.specs.Messages.{Message, copies, sent, waiting};
ghost use Rattle.history_model.specs.State.{is_up};
ghost use Rattle.history_model.specs.Streams.{window};
ghost use Rattle.history_model.specs.Tells.{fact_names};
ghost use Rattle.ingress_gateway.specs.Gate.{IsWindowOf};
ghost use Rattle.ingress_gateway.specs.Pending.{named_count};
ghost use Rattle.link_table.specs.LinkState.{FitsGate};
ghost use Rattle.link_table.specs.Piled.{IsLowest, copies_in, pile_at};
ghost use Rattle.link_table.specs.Standing.{CountsSince, is_link_open};
ghost use Rattle.mailboxes.specs.Mail.{mail_of};
ghost use Rattle.ready_actors.specs.Ready.{IsAbove, IsLowestOf, IsOfNone, has_actor};
ghost use Rattle.traffic.specs.Changes.{AdmitsCopy, ClosesLink, CutsWindow, Delivers, HasRoomFor, IsAsBefore, IsNewTraffic, LosesCopy, NodeGoesDown, RepeatsCopy, Rests, SendsMessage, SendsOnLink, TakesMessage, Wakes};
ghost use Rattle.traffic.specs.Loads.{live_in, up_in};
ghost use Rattle.traffic.specs.Readings.{IsHead, IsLowestNode, IsNextReady, IsNextRemoval, IsNextWindow, IsOpenLink, MayCut, MayRemove};
ghost use Rattle.traffic.specs.Standing.{AlwaysKeeps, InHistoriesOf, IsTrafficOf, KeepsIfTold};
ghost use Rattle.traffic.specs.TrafficState.{link_of, message_on, pile_on, recipient_on};

use crate::loads::NodeLoads;
use crate::ready_changes::{put_if, undo};
use crgc_ids::{ActorId, NoMemory, NodeId, RefList};
use history_model::Window;
use link_table::LinkTable;
use mailboxes::Mailboxes;
use ready_actors::ReadyActors;
use std::alloc::Global;
use std::marker::Model;

/// The traffic between the actors of a cluster of 1 to 16 nodes: the messages that are under way on its links, those that wait
/// for the actors, the actors that may take one, and how many messages are live. It keeps its allocator. Contracts see a
/// record of its parts.
#[derive(Drop)]
pub struct Traffic {
    links: LinkTable,
    boxes: Mailboxes,
    ready: ReadyActors,
    loads: NodeLoads,
    nodes: u8,
}

impl Model for Traffic {
    ghost use Rattle.std.specs.Prelude.{◌≤◌};
    ghost use Rattle.traffic.specs.TrafficState.{TrafficState};

    ghost Value = { TrafficState };

    ghost view = { λ t. record { nodes = t.nodes; loads = t.loads; links = t.links; boxes = t.boxes; ready = t.ready } };

    ghost invariant = { λ t. t.nodes ≤ 16 };
}

impl Traffic {
    /// No message was sent, and all nodes are up.
    pub fn new(alloc: Global, nodes: u8) -> Result<Traffic, NoMemory>
        requires { nodes ≤ 16 }
        ensures fresh { IfOk result (λ t. IsNewTraffic t nodes) }
        ensures stands { IfOk result (λ t. (cl : Cluster) → cl.nodes ≡ nodes → IsTrafficOf cl [] t) }
    {
        let Ok(links) = LinkTable::new(alloc) else {
            return Err(NoMemory);
        };
        Ok(Traffic {
            links,
            boxes: Mailboxes::new(alloc),
            ready: ReadyActors::new(alloc),
            loads: NodeLoads::new(),
            nodes,
        })
    }

    /// A message is sent. Within one node it waits at once, and the recipient may take it if it is idle. Between two nodes it
    /// gets the next number of their link, which is the answer. After `NoMemory` all is as before. Logarithmic time in the
    /// number of actors and in the numbers that have a copy on the link, amortized.
    pub fn send(
        &mut self,
        from: ActorId,
        to: ActorId,
        refs: RefList,
        idle: bool,
    ) -> Result<Option<u32>, NoMemory>
        requires sent { (from.node ≡ to.node → ⊥) → (link_of self.old from.node to.node).sent + 1 < 2 ^ 32 }
        requires live { live_in self.old.loads to.node + 1 < 2 ^ 32 }
        ensures local { from.node ≡ to.node → IfOk result (λ number. number ≡ None) }
        ensures number { (from.node ≡ to.node → ⊥) → IfOk result (λ number. number ≡ Some (link_of self.old from.node to.node).sent) }
        ensures ok { OnOk result (SendsMessage self.old self.new from to refs idle) }
        ensures kept { OnOk result (KeepsIfTold idle (Some to) (Send from to refs) self.old self.new) }
        ensures err { OnErr result (IsAsBefore self.old self.new) }
    {
        if from.node() == to.node() {
            return self.deliver(to, refs, idle);
        }
        self.send_on_link(from.node(), to, refs)
    }

    /// A message within one node.
    fn deliver(&mut self, to: ActorId, refs: RefList, idle: bool) -> Result<Option<u32>, NoMemory>
        requires live { live_in self.old.loads to.node + 1 < 2 ^ 32 }
        ensures number { IfOk result (λ number. number ≡ None) }
        ensures ok { OnOk result (Delivers self.old self.new to refs idle) }
        ensures err { OnErr result (IsAsBefore self.old self.new) }
    {
        let Ok(added) = put_if(&mut self.ready, to, idle) else {
            return Err(NoMemory);
        };
        if self.boxes.put(to, refs).is_err() {
            undo(&mut self.ready, to, added);
            return Err(NoMemory);
        }
        self.loads.add_if(to.node(), true);
        Ok(None)
    }

    /// A message between two nodes.
    fn send_on_link(
        &mut self,
        from: NodeId,
        to: ActorId,
        refs: RefList,
    ) -> Result<Option<u32>, NoMemory>
        requires apart { from ≢ to.node }
        requires sent { (link_of self.old from to.node).sent + 1 < 2 ^ 32 }
        requires live { live_in self.old.loads to.node + 1 < 2 ^ 32 }
        ensures number { IfOk result (λ number. number ≡ Some (link_of self.old from to.node).sent) }
        ensures ok { OnOk result (SendsOnLink self.old self.new from to refs) }
        ensures err { OnErr result (IsAsBefore self.old self.new) }
    {
        let is_open = self.links.link(from, to.node()).is_open();
        let Ok(number) = self.links.send(from, to, refs) else {
            return Err(NoMemory);
        };
        self.loads.add_if(to.node(), is_open);
        Ok(Some(number))
    }

    /// One copy of a number of a link that has some is lost. Logarithmic time in the numbers that have a copy on the link.
    pub fn lose(&mut self, from: NodeId, at: NodeId, number: u32)
        requires apart { from ≢ at }
        requires some { 0 < copies_in (pile_on self.old from at number) }
        ensures change { LosesCopy self.old self.new from at number }
        ensures kept { AlwaysKeeps (Lose from at number) self.old self.new }
    {
        let before = self.links.link(from, at).under_way();
        self.links.lose(from, at, number);
        let after = self.links.link(from, at).under_way();
        self.loads.take_off(at, before.saturating_sub(after));
    }

    /// One copy more of a number of a link that has some. Logarithmic time in the numbers that have a copy on the link.
    pub fn repeat(&mut self, from: NodeId, at: NodeId, number: u32)
        requires apart { from ≢ at }
        requires some { 0 < copies_in (pile_on self.old from at number) }
        requires fits { copies_in (pile_on self.old from at number) + 1 < 2 ^ 32 }
        ensures change { RepeatsCopy self.old self.new from at number }
        ensures kept { AlwaysKeeps (Repeat from at number) self.old self.new }
    {
        self.links.repeat(from, at, number);
    }

    /// The actor to which a message goes of which a copy is on the link and none was admitted. Logarithmic time in the numbers
    /// that have a copy on the link.
    pub fn recipient(&self, from: NodeId, at: NodeId, number: u32) -> Option<ActorId>
        requires apart { from ≢ at }
        ensures { result ≡ recipient_on self.now from at number }
    {
        match self.links.link(from, at).message(number) {
            Some(message) => Some(message.to),
            None => None,
        }
    }

    /// One copy of a number of a link that has some comes to the gate. The first time its message waits for the recipient, who
    /// may take it if it is idle; the answer is that actor. Else the copy is discarded: None. After `NoMemory` all is as
    /// before. Logarithmic time in the number of actors, in the numbers that have a copy on the link and in the runs of
    /// admitted numbers, and amortized constant time for each reference on average.
    pub fn admit(
        &mut self,
        from: NodeId,
        at: NodeId,
        number: u32,
        idle: bool,
    ) -> Result<Option<ActorId>, NoMemory>
        requires apart { from ≢ at }
        requires some { 0 < copies_in (pile_on self.old from at number) }
        requires fits { FitsGate (link_of self.old from at).gate (message_on self.old from at number) }
        ensures to { IfOk result (λ to. to ≡ recipient_on self.old from at number) }
        ensures ok { OnOk result (AdmitsCopy self.old self.new from at number idle) }
        ensures kept { OnOk result (KeepsIfTold idle (recipient_on self.old from at number) (Admit from at number) self.old self.new) }
        ensures err { OnErr result (IsAsBefore self.old self.new) }
    {
        let Some(to) = self.recipient(from, at, number) else {
            return self.discard(from, at, number);
        };
        let Ok(added) = self.reserve_for(to, idle) else {
            return Err(NoMemory);
        };
        let Ok(message) = self.links.admit(from, at, number) else {
            undo(&mut self.ready, to, added);
            return Err(NoMemory);
        };
        self.boxes.put(to, message.unwrap().refs).unwrap();
        Ok(Some(to))
    }

    /// The actor's first message, which is taken out. The actor takes no other one until it rests. Logarithmic time in the
    /// number of actors.
    pub fn take(&mut self, actor: ActorId) -> RefList
        requires { 0 < length (mail_of self.old.boxes actor) }
        ensures first { slice_get (mail_of self.old.boxes actor) 0 ≡ Some result }
        ensures taken { InHistoriesOf self.old (λ h. option_map (λ (m : Message). m.refs) (slice_get (waiting actor h) 0) ≡ Some result) }
        ensures change { TakesMessage self.old self.new actor }
        ensures kept { AlwaysKeeps (Take actor) self.old self.new }
    {
        let refs = self.boxes.pop(actor).unwrap();
        self.ready.take_out(actor);
        self.loads.take_off(actor.node(), 1);
        refs
    }

    /// The actor becomes busy of itself: it takes no message until it rests. Logarithmic time in the number of actors.
    pub fn wake(&mut self, actor: ActorId)
        ensures change { Wakes self.old self.new actor }
        ensures kept { AlwaysKeeps (Wake actor) self.old self.new }
    {
        self.ready.take_out(actor)
    }

    /// The actor rests: it may take a message again, if one waits. After `NoMemory` all is as before. Logarithmic time in the
    /// number of actors.
    pub fn rest(&mut self, actor: ActorId) -> Result<(), NoMemory>
        ensures ok { OnOk result (Rests self.old self.new actor) }
        ensures kept { OnOk result (AlwaysKeeps (Rest actor) self.old self.new) }
        ensures err { OnErr result (IsAsBefore self.old self.new) }
    {
        let waits = 0 < self.boxes.waiting(actor);
        match put_if(&mut self.ready, actor, waits) {
            Ok(_) => Ok(()),
            Err(_) => Err(NoMemory),
        }
    }

    /// The node crashes: nothing is live there, none of its actors takes a message, and nothing is admitted there. What waited
    /// for its actors waits on. Linear time in what is on the links to the node, and logarithmic time in the number of actors
    /// for each of its actors that might take a message.
    pub fn crash(&mut self, node: NodeId)
        ensures change { NodeGoesDown self.old self.new node }
        ensures kept { AlwaysKeeps (Crash node) self.old self.new }
    {
        self.links.crash(node);
        self.ready.leave(node);
        self.loads.crash(node);
    }

    /// What was admitted on the link since its last window; None exactly where nothing was. Time in proportion to n log n for
    /// n messages and references, without memory.
    pub fn cut_window(&mut self, at: NodeId, from: NodeId) -> Option<Window>
        requires apart { from ≢ at }
        requires open { (link_of self.old from at).is_open ≡ true }
        ensures some { IfSome result (IsWindowOf (link_of self.old from at).gate) }
        ensures counts { IfSome result (λ w. InHistoriesOf self.old (λ h. CountsSince from at h w)) }
        ensures change { OnSome result (CutsWindow self.old self.new from at) }
        ensures kept { OnSome result (AlwaysKeeps (WindowEvent at from) self.old self.new) }
        ensures admitted { OnSome result (0 < length (link_of self.old from at).gate.messages) }
        ensures none { IfNone result (length (link_of self.old from at).gate.messages ≡ 0) }
        ensures unchanged { IfNone result (IsAsBefore self.old self.new) }
    {
        self.links.cut_window(at, from)
    }

    /// `at` removes the crashed node `gone`: what was admitted on the link since its last window, perhaps nothing. What was
    /// under way there is not live any more. Time in proportion to n log n for n messages and references that were admitted or
    /// are there, without memory.
    pub fn close(&mut self, at: NodeId, gone: NodeId) -> Window
        requires apart { gone ≢ at }
        requires open { (link_of self.old gone at).is_open ≡ true }
        ensures window { IsWindowOf (link_of self.old gone at).gate result }
        ensures counts { InHistoriesOf self.old (λ h. CountsSince gone at h result) }
        ensures change { ClosesLink self.old self.new gone at }
        ensures kept { AlwaysKeeps (Remove at gone) self.old self.new }
    {
        let under_way = self.links.link(gone, at).under_way();
        self.loads.take_off(at, under_way);
        self.links.close(at, gone)
    }

    /// How many messages wait for the actor. Logarithmic time in the number of actors.
    pub fn mail(&self, actor: ActorId) -> usize
        ensures mail { result ≡ length (mail_of self.now.boxes actor) }
        ensures stands { InHistoriesOf self.now (λ h. result ≡ length (waiting actor h)) }
    {
        self.boxes.waiting(actor)
    }

    /// The actor's first message, which `take` would answer; None exactly where none waits. Logarithmic time in the number of
    /// actors.
    pub fn first(&self, actor: ActorId) -> Option<&RefList>
        ensures first { option_copied result ≡ slice_get (mail_of self.now.boxes actor) 0 }
        ensures stands { InHistoriesOf self.now (λ h. option_copied result ≡ option_map (λ (m : Message). m.refs) (slice_get (waiting actor h) 0)) }
    {
        self.boxes.first(actor)
    }

    /// How many copies of the number are on the link, while it is open; else 0. Logarithmic time in the numbers that have a
    /// copy.
    pub fn copies(&self, from: NodeId, at: NodeId, number: u32) -> u32
        requires { from ≢ at }
        ensures pile { result ≡ copies_in (pile_on self.now from at number) }
        ensures stands { InHistoriesOf self.now (λ h. is_link_open from at h ≡ true → result ≡ copies from at number h) }
    {
        self.links.link(from, at).copies(number)
    }

    /// Whether what is on the link can be admitted: the node at its end is up, and has not removed the other.
    pub fn is_open(&self, from: NodeId, at: NodeId) -> bool
        requires { from ≢ at }
        ensures link { result ≡ (link_of self.now from at).is_open }
        ensures stands { InHistoriesOf self.now (λ h. result ≡ is_link_open from at h) }
    {
        self.links.link(from, at).is_open()
    }

    /// How many messages were sent on the link.
    pub fn sent(&self, from: NodeId, at: NodeId) -> u32
        requires { from ≢ at }
        ensures link { result ≡ (link_of self.now from at).sent }
        ensures stands { InHistoriesOf self.now (λ h. result ≡ length (sent from at h)) }
    {
        self.links.link(from, at).sent()
    }

    /// The lowest number of which a copy is on the link, while it is open; None exactly where there is none. Logarithmic time
    /// in the numbers that have a copy.
    pub fn head(&self, from: NodeId, at: NodeId) -> Option<u32>
        requires { from ≢ at }
        ensures some { IfSome result (IsLowest (link_of self.now from at).piles) }
        ensures none { IfNone result ((k : ℕ) → pile_on self.now from at k ≡ None) }
        ensures stands { InHistoriesOf self.now (λ h. IsHead from at h result) }
    {
        self.links.link(from, at).head()
    }

    /// How many different actors the next window of the link will name.
    pub fn named(&self, from: NodeId, at: NodeId) -> usize
        requires { from ≢ at }
        ensures link { result ≡ named_count (link_of self.now from at).gate.messages (link_of self.now from at).gate.carried }
        ensures stands { InHistoriesOf self.now (λ h. result ≡ length (rising_actors (fact_names (window from at h)))) }
    {
        self.links.link(from, at).named()
    }

    /// The lowest actor that may take a message, of those above the one that is given; None exactly where there is none.
    /// Logarithmic time in the number of actors.
    pub fn next_ready(&self, after: Option<ActorId>) -> Option<ActorId>
        ensures some { IfSome result (IsLowestOf self.now.ready (IsAbove after)) }
        ensures none { IfNone result (IsOfNone self.now.ready (IsAbove after)) }
        ensures stands { InHistoriesOf self.now (λ h. IsNextReady h after result) }
    {
        self.ready.next(after)
    }

    /// The lowest node from which `at` may cut a window: something was admitted on the open link since the last one. None
    /// exactly where there is none. Constant time.
    pub fn next_window(&self, at: NodeId) -> Option<NodeId>
        ensures lowest { IsLowestNode (MayCut self.now at) result }
        ensures stands { (cl : Cluster) (h : List Event) → IsTrafficOf cl h self.now → IsNextWindow cl at h result }
    {
        let _nodes = self.nodes;
        for number in 0u8..16 {
            let from = node(number);
            if self.may_cut(from, at) {
                return Some(from);
            }
        }
        None
    }

    /// The lowest crashed node that `at` has not removed. None exactly where there is none. Constant time.
    pub fn next_removal(&self, at: NodeId) -> Option<NodeId>
        ensures lowest { IsLowestNode (MayRemove self.now at) result }
        ensures stands { (cl : Cluster) (h : List Event) → IsTrafficOf cl h self.now → IsNextRemoval cl at h result }
    {
        let _nodes = self.nodes;
        for number in 0u8..16 {
            let gone = node(number);
            if self.may_remove(gone, at) {
                return Some(gone);
            }
        }
        None
    }

    /// Whether `at` may cut a window of the link.
    fn may_cut(&self, from: NodeId, at: NodeId) -> bool
        ensures may { result ≡ true → MayCut self.now at from }
        ensures may_not { result ≡ false → MayCut self.now at from → ⊥ }
    {
        if !self.is_open_link(from, at) {
            return false;
        }
        0 < self.links.link(from, at).named()
    }

    /// Whether `at` may remove the node.
    fn may_remove(&self, gone: NodeId, at: NodeId) -> bool
        ensures may { result ≡ true → MayRemove self.now at gone }
        ensures may_not { result ≡ false → MayRemove self.now at gone → ⊥ }
    {
        if !self.is_open_link(gone, at) {
            return false;
        }
        !self.loads.is_up(gone)
    }

    /// Whether the two are different nodes of the cluster, and the link is open.
    fn is_open_link(&self, from: NodeId, at: NodeId) -> bool
        ensures may { result ≡ true → IsOpenLink self.now at from }
        ensures may_not { result ≡ false → IsOpenLink self.now at from → ⊥ }
    {
        if from == at || self.nodes <= from.get() || self.nodes <= at.get() {
            return false;
        }
        self.links.link(from, at).is_open()
    }

    /// How many messages are live. Constant time.
    pub fn live_count(&self) -> u64
        ensures loads { result ≡ sum_by (λ n. live_in self.now.loads n) (nodes_below self.now.nodes) }
        ensures stands { (cl : Cluster) (h : List Event) → IsTrafficOf cl h self.now → result ≡ live_count cl h }
    {
        self.loads.total(self.nodes)
    }

    /// Whether the node is up.
    pub fn is_up(&self, node: NodeId) -> bool
        ensures loads { result ≡ up_in self.now.loads node }
        ensures stands { InHistoriesOf self.now (λ h. result ≡ is_up node h) }
    {
        self.loads.is_up(node)
    }

    /// A copy of a number that was admitted before.
    fn discard(
        &mut self,
        from: NodeId,
        at: NodeId,
        number: u32,
    ) -> Result<Option<ActorId>, NoMemory>
        requires apart { from ≢ at }
        requires some { 0 < copies_in (pile_on self.old from at number) }
        requires none { message_on self.old from at number ≡ None }
        ensures to { IfOk result (λ to. to ≡ None) }
        ensures ok { OnOk result ((idle : Bool) → AdmitsCopy self.old self.new from at number idle) }
        ensures err { OnErr result (IsAsBefore self.old self.new) }
    {
        match self.links.admit(from, at, number) {
            Ok(_) => Ok(None),
            Err(_) => Err(NoMemory),
        }
    }

    /// Room for one more message to the actor, who may take it if it is idle. The answer is whether it could take none before.
    /// After `NoMemory` all is as before.
    fn reserve_for(&mut self, to: ActorId, idle: bool) -> Result<bool, NoMemory>
        ensures ok { OnOk result (HasRoomFor self.old self.new to idle) }
        ensures added { IfOk result (λ added. added ≡ (idle && not (has_actor self.old.ready to))) }
        ensures err { OnErr result (IsAsBefore self.old self.new) }
    {
        let Ok(added) = put_if(&mut self.ready, to, idle) else {
            return Err(NoMemory);
        };
        if self.boxes.reserve(to).is_err() {
            undo(&mut self.ready, to, added);
            return Err(NoMemory);
        }
        Ok(added)
    }
}

/// The node with this number.
fn node(number: u8) -> NodeId
    requires { number < 16 }
    ensures { result ≡ number }
{
    NodeId::new(number).unwrap()
}
