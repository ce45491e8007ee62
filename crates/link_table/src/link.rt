//! One link, from the node that sends on it to the node that admits from it.
ghost use Rattle.std.specs.Prelude.{◌≡◌, ◌≢◌, ◌+◌, ◌<◌, ◌^◌, ℕ, [], false, true, length};
ghost use Rattle.std.specs.Prelude.{IfNone, IfOk, IfSome, None, OnErr, OnOk, OnSome};
ghost use Rattle.std.specs.Option.{option_copied};
ghost use Rattle.ingress_gateway.specs.Gate.{IsWindowOf, is_admitted};
ghost use Rattle.ingress_gateway.specs.Pending.{named_count};
ghost use Rattle.link_table.specs.Piled.{IsLowest, copies_in, kept_count, message_in, pile_at};
ghost use Rattle.link_table.specs.LinkState.{Admitted, FitsGate, IsNewLink, Loses, Repeats, SendsTo, abandoned, closed, cut};

use crate::piles::{Envelope, Piles};
use crgc_ids::{ActorId, NoMemory, NodeId, RefList};
use egress_gateway::Egress;
use history_model::Window;
use ingress_gateway::Ingress;
use std::alloc::Global;
use std::marker::Model;

/// The link from one node to another: what was sent on it and is still there, and the gates at its two ends. It is open
/// until the node at its end crashes or removes the one that sends; what is there can be admitted only while it is open, and
/// is kept no longer. It keeps its allocator. Contracts see whether it is open, how many messages were sent, the receiving
/// gate, and the piles of copies.
#[derive(Drop)]
pub struct Link {
    is_open: bool,
    egress: Egress,
    ingress: Ingress,
    piles: Piles,
}

impl Model for Link {
    ghost use Rattle.link_table.specs.LinkState.{LinkState};
    ghost use Rattle.link_table.specs.Keeping.{IsKept};

    ghost Value = { LinkState };

    ghost view = { λ l. record { is_open = l.is_open; sent = l.egress; gate = l.ingress; piles = l.piles } };

    ghost invariant = { λ l. IsKept (record { is_open = l.is_open; sent = l.egress; gate = l.ingress; piles = l.piles }) };
}

impl Link {
    /// The open link between two nodes, on which nothing was sent.
    pub fn new(alloc: Global, from: NodeId, at: NodeId) -> Link
        requires { from ≢ at }
        ensures { IsNewLink result from at }
    {
        Link {
            is_open: true,
            egress: Egress::new(),
            ingress: Ingress::new(alloc, from, at),
            piles: Piles::new(alloc),
        }
    }

    /// A message is sent: it gets the next number, which is the answer. While the link is open, its first copy is then there.
    /// After `NoMemory`, which comes only then, all is as before. Logarithmic time in the numbers that have a copy.
    pub fn send(&mut self, to: ActorId, refs: RefList) -> Result<u32, NoMemory>
        requires { self.old.sent + 1 < 2 ^ 32 }
        ensures number { IfOk result (λ number. number ≡ self.old.sent) }
        ensures ok { OnOk result (SendsTo self.old self.new to refs) }
        ensures err { OnErr result (self.new ≡ self.old) }
        ensures open { OnErr result (self.old.is_open ≡ true) }
    {
        if !self.is_open {
            return Ok(self.egress.stamp());
        }
        let number = self.egress.sent();
        if self.piles.put(number, Envelope { to, refs }).is_err() {
            return Err(NoMemory);
        }
        Ok(self.egress.stamp())
    }

    /// One copy more of a number that has some. Logarithmic time in the numbers that have a copy.
    pub fn repeat(&mut self, number: u32)
        requires some { 0 < copies_in (pile_at self.old.piles number) }
        requires fits { copies_in (pile_at self.old.piles number) + 1 < 2 ^ 32 }
        ensures { Repeats self.old self.new number }
    {
        self.piles.repeat(number);
    }

    /// One copy of a number that has some is lost. Logarithmic time in the numbers that have a copy.
    pub fn lose(&mut self, number: u32)
        requires { 0 < copies_in (pile_at self.old.piles number) }
        ensures { Loses self.old self.new number }
    {
        self.piles.lose(number);
    }

    /// One copy of a number that has some comes to the gate: the message, if the number was not admitted before; else None. It
    /// counts then in the window that comes next. After `NoMemory`, which comes only where it would be admitted, all is as
    /// before. Logarithmic time in the numbers that have a copy and in the runs of admitted numbers, and amortized constant
    /// time for each reference on average.
    pub fn admit(&mut self, number: u32) -> Result<Option<Envelope>, NoMemory>
        requires some { 0 < copies_in (pile_at self.old.piles number) }
        requires fits { FitsGate self.old.gate (message_in (pile_at self.old.piles number)) }
        ensures message { IfOk result (λ m. m ≡ message_in (pile_at self.old.piles number)) }
        ensures ok { OnOk result (Admitted self.old self.new number) }
        ensures err { OnErr result (self.new ≡ self.old) }
        ensures fresh { OnErr result (is_admitted self.old.gate number ≡ false) }
    {
        let Some(message) = self.piles.message(number) else {
            self.piles.lose(number);
            return Ok(None);
        };
        let refs = message.refs.as_slice();
        if self.ingress.admit(number, message.to, refs).is_err() {
            return Err(NoMemory);
        }
        let message = self.piles.strip(number);
        self.piles.lose(number);
        Ok(message)
    }

    /// What was admitted since the last window; None exactly where nothing was. Time in proportion to n log n for n messages
    /// and references, without memory.
    pub fn cut_window(&mut self) -> Option<Window>
        requires { self.old.is_open ≡ true }
        ensures some { IfSome result (λ w. IsWindowOf self.old.gate w) }
        ensures after { OnSome result (self.new ≡ cut self.old) }
        ensures none { IfNone result ((self.old.gate.messages ≡ []) × (self.new ≡ self.old)) }
        ensures admitted { OnSome result (0 < length self.old.gate.messages) }
    {
        self.ingress.cut_window()
    }

    /// The node at the end removes the one that sends: what was admitted since the last window, perhaps nothing. Nothing is
    /// admitted from then on, and nothing kept. Time in proportion to n log n for n messages and references that were admitted
    /// or are there, without memory.
    pub fn close(&mut self) -> Window
        requires { self.old.is_open ≡ true }
        ensures window { IsWindowOf self.old.gate result }
        ensures after { self.new ≡ closed self.old }
    {
        self.is_open = false;
        self.piles.clear();
        self.ingress.close()
    }

    /// The node at the end crashes: nothing is admitted from then on, and nothing kept. Linear time in the numbers that have a
    /// copy.
    pub fn abandon(&mut self)
        ensures { self.new ≡ abandoned self.old }
    {
        self.is_open = false;
        self.piles.clear();
    }

    /// Whether what is on the link can be admitted.
    pub fn is_open(&self) -> bool
        ensures { result ≡ self.now.is_open }
    {
        self.is_open
    }

    /// How many messages were sent.
    pub fn sent(&self) -> u32
        ensures { result ≡ self.now.sent }
    {
        self.egress.sent()
    }

    /// How many copies of the number are there. Logarithmic time in the numbers that have a copy.
    pub fn copies(&self, number: u32) -> u32
        ensures { result ≡ copies_in (pile_at self.now.piles number) }
    {
        self.piles.copies(number)
    }

    /// The message of which a copy is there and none was admitted. Logarithmic time in the numbers that have a copy.
    pub fn message(&self, number: u32) -> Option<&Envelope>
        ensures { option_copied result ≡ message_in (pile_at self.now.piles number) }
    {
        self.piles.message(number)
    }

    /// How many messages are under way: a copy is there, and none was admitted.
    pub fn under_way(&self) -> u32
        ensures { result ≡ kept_count self.now.piles }
    {
        self.piles.kept()
    }

    /// How many different actors the next window will name: 0 exactly where nothing was admitted since the last one. Constant
    /// time.
    pub fn named(&self) -> usize
        ensures { result ≡ named_count self.now.gate.messages self.now.gate.carried }
    {
        self.ingress.named()
    }

    /// The lowest number of which a copy is there; None exactly where there is none. Logarithmic time in the numbers that have
    /// a copy.
    pub fn head(&self) -> Option<u32>
        ensures some { IfSome result (IsLowest self.now.piles) }
        ensures none { IfNone result ((k : ℕ) → pile_at self.now.piles k ≡ None) }
    {
        self.piles.first()
    }
}
