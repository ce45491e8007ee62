//! The links between the nodes.
ghost use Rattle.std.specs.Prelude.{◌≡◌, ◌≢◌, ◌+◌, ◌<◌, ◌^◌, ℕ, [], false, true, length};
ghost use Rattle.std.specs.Prelude.{IfNone, IfOk, IfSome, OnErr, OnOk, OnSome};
ghost use Rattle.ingress_gateway.specs.Gate.{IsWindowOf, is_admitted};
ghost use Rattle.link_table.specs.LinkState.{Admitted, FitsGate, IsNewLink, Loses, Repeats, SendsTo, abandoned, closed, cut};
ghost use Rattle.link_table.specs.Piled.{copies_in, message_in, pile_at};
ghost use Rattle.link_table.specs.Table.{IsLink, OthersStay, after_crash, end_of, link_at, place, source_of};

use crate::link::Link;
use crate::piles::Envelope;
use crgc_ids::{ActorId, NoMemory, NodeId, RefList};
use history_model::Window;
use std::alloc::Global;
use std::marker::Model;

/// The links between 16 nodes, from each to each other. It keeps its allocator. Contracts see the list of the links, and read
/// it by `link_at`.
#[derive(Drop)]
pub struct LinkTable {
    links: Vec<Link>,
}

impl Model for LinkTable {
    ghost use Rattle.std.specs.Prelude.{◌≡◌, List, length};
    ghost use Rattle.link_table.specs.LinkState.{LinkState};

    ghost Value = { List LinkState };

    ghost view = { λ t. t.links.items };

    ghost invariant = { λ t. length t.links.items ≡ 240 };
}

impl LinkTable {
    /// Open links, on which nothing was sent.
    pub fn new(alloc: Global) -> Result<LinkTable, NoMemory>
        ensures { IfOk result (λ t. (s d : ℕ) → IsLink s d → IsNewLink (link_at t s d) s d) }
    {
        let mut links = Vec::new(alloc);
        for number in 0u8..240 {
            if links.push(new_link(alloc, number)).is_err() {
                return Err(NoMemory);
            }
        }
        Ok(LinkTable { links })
    }

    /// The link from one node to another.
    pub fn link(&self, from: NodeId, at: NodeId) -> &Link
        requires { from ≢ at }
        ensures link { result.now ≡ link_at self.now from at }
        ensures ends { IsLink from at }
    {
        &self.links[place(from, at)]
    }

    /// A message is sent on the link, as `Link::send` says. After `NoMemory` all is as before.
    pub fn send(&mut self, from: NodeId, to: ActorId, refs: RefList) -> Result<u32, NoMemory>
        requires apart { from ≢ to.node }
        requires fits { (link_at self.old from to.node).sent + 1 < 2 ^ 32 }
        ensures number { IfOk result (λ number. number ≡ (link_at self.old from to.node).sent) }
        ensures ok { OnOk result (SendsTo (link_at self.old from to.node) (link_at self.new from to.node) to refs) }
        ensures others { OthersStay self.old self.new from to.node }
        ensures err { OnErr result (link_at self.new from to.node ≡ link_at self.old from to.node) }
    {
        self.links[place(from, to.node())].send(to, refs)
    }

    /// One copy more of a number of the link that has some, as `Link::repeat` says.
    pub fn repeat(&mut self, from: NodeId, at: NodeId, number: u32)
        requires apart { from ≢ at }
        requires some { 0 < copies_in (pile_at (link_at self.old from at).piles number) }
        requires fits { copies_in (pile_at (link_at self.old from at).piles number) + 1 < 2 ^ 32 }
        ensures repeats { Repeats (link_at self.old from at) (link_at self.new from at) number }
        ensures others { OthersStay self.old self.new from at }
    {
        self.links[place(from, at)].repeat(number);
    }

    /// One copy of a number of the link that has some is lost, as `Link::lose` says.
    pub fn lose(&mut self, from: NodeId, at: NodeId, number: u32)
        requires apart { from ≢ at }
        requires some { 0 < copies_in (pile_at (link_at self.old from at).piles number) }
        ensures loses { Loses (link_at self.old from at) (link_at self.new from at) number }
        ensures others { OthersStay self.old self.new from at }
    {
        self.links[place(from, at)].lose(number);
    }

    /// One copy of a number of the link that has some comes to its gate, as `Link::admit` says. After `NoMemory` all is as
    /// before.
    pub fn admit(
        &mut self,
        from: NodeId,
        at: NodeId,
        number: u32,
    ) -> Result<Option<Envelope>, NoMemory>
        requires apart { from ≢ at }
        requires some { 0 < copies_in (pile_at (link_at self.old from at).piles number) }
        requires fits { FitsGate (link_at self.old from at).gate (message_in (pile_at (link_at self.old from at).piles number)) }
        ensures message { IfOk result (λ m. m ≡ message_in (pile_at (link_at self.old from at).piles number)) }
        ensures ok { OnOk result (Admitted (link_at self.old from at) (link_at self.new from at) number) }
        ensures others { OthersStay self.old self.new from at }
        ensures err { OnErr result (link_at self.new from at ≡ link_at self.old from at) }
        ensures fresh { OnErr result (is_admitted (link_at self.old from at).gate number ≡ false) }
    {
        self.links[place(from, at)].admit(number)
    }

    /// What was admitted on the link since its last window, as `Link::cut_window` says.
    pub fn cut_window(&mut self, at: NodeId, from: NodeId) -> Option<Window>
        requires apart { from ≢ at }
        requires open { (link_at self.old from at).is_open ≡ true }
        ensures some { IfSome result (λ w. IsWindowOf (link_at self.old from at).gate w) }
        ensures after { OnSome result (link_at self.new from at ≡ cut (link_at self.old from at)) }
        ensures none { IfNone result (((link_at self.old from at).gate.messages ≡ []) × (link_at self.new from at ≡ link_at self.old from at)) }
        ensures admitted { OnSome result (0 < length (link_at self.old from at).gate.messages) }
        ensures others { OthersStay self.old self.new from at }
    {
        self.links[place(from, at)].cut_window()
    }

    /// The node at the end of the link removes the other, as `Link::close` says.
    pub fn close(&mut self, at: NodeId, gone: NodeId) -> Window
        requires apart { gone ≢ at }
        requires open { (link_at self.old gone at).is_open ≡ true }
        ensures window { IsWindowOf (link_at self.old gone at).gate result }
        ensures after { link_at self.new gone at ≡ closed (link_at self.old gone at) }
        ensures others { OthersStay self.old self.new gone at }
    {
        self.links[place(gone, at)].close()
    }

    /// The node crashes: all links that lead to it are abandoned, as `Link::abandon` says.
    pub fn crash(&mut self, at: NodeId)
        ensures { (s d : ℕ) → IsLink s d → link_at self.new s d ≡ after_crash at self.old s d }
    {
        for number in 0u8..16 {
            let from = node(number);
            if from != at {
                self.abandon(from, at);
            }
        }
    }

    /// One link that leads to a node that crashes is abandoned.
    fn abandon(&mut self, from: NodeId, at: NodeId)
        requires { from ≢ at }
        ensures after { link_at self.new from at ≡ abandoned (link_at self.old from at) }
        ensures others { OthersStay self.old self.new from at }
    {
        self.links[place(from, at)].abandon();
    }
}

/// A new link, which leads between the nodes of this place in the table.
fn new_link(alloc: Global, number: u8) -> Link
    requires { number < 240 }
    ensures { IsNewLink result (source_of number) (end_of number) }
{
    let from = number / 15;
    let other = number % 15;
    if other < from {
        return Link::new(alloc, node(from), node(other));
    }
    Link::new(alloc, node(from), node(other + 1))
}

/// The place of the link from one node to another in the table.
fn place(from: NodeId, at: NodeId) -> usize
    requires { from ≢ at }
    ensures value { result ≡ place from at }
    ensures ends { IsLink from at }
    ensures in_range { result < 240 }
{
    let from = from.get() as usize;
    let at = at.get() as usize;
    if at < from {
        from * 15 + at
    } else {
        from * 15 + at - 1
    }
}

/// The node with this number.
fn node(number: u8) -> NodeId
    requires { number < 16 }
    ensures { result ≡ number }
{
    NodeId::new(number).unwrap()
}
