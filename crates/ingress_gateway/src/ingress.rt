//! The receiving end of a link.
ghost use Rattle.std.specs.Prelude.{◌≡◌, ◌≢◌, ◌+◌, ◌<◌, ◌^◌, ℕ, [], true, false, IfNone, IfOk, IfSome, OnErr, OnSome, count_by, length};
ghost use Rattle.crgc_ids.specs.Actor.{Actor, same_actor};
ghost use Rattle.ingress_gateway.specs.Admission.{Answered};
ghost use Rattle.ingress_gateway.specs.Gate.{IsWindowOf, emptied, is_admitted};
ghost use Rattle.ingress_gateway.specs.Pending.{carried_count, message_count, named_count};

use crate::backlog::Backlog;
use crate::numbers::Numbers;
use crgc_ids::{ActorId, NoMemory, NodeId};
use history_model::Window;
use std::alloc::Global;
use std::marker::Model;
use std::mem;

/// What became of a copy of a message: the link was closed; its number was admitted before; it is admitted.
#[derive(Clone, Copy, PartialEq, Eq, Debug)]
pub enum Admit {
    Closed,
    Discarded,
    Admitted,
}

/// The receiving end of the link between two nodes. It keeps its allocator. Contracts see the two nodes, whether the link
/// is closed, which numbers were admitted, and what was admitted since the last window.
#[derive(Drop)]
pub struct Ingress {
    alloc: Global,
    at: NodeId,
    from: NodeId,
    is_closed: bool,
    numbers: Numbers,
    backlog: Backlog,
}

impl Model for Ingress {
    ghost use Rattle.ingress_gateway.specs.Gate.{Gate};

    ghost Value = { Gate };

    ghost view = { λ i. record {
      at = i.at;
      from = i.from;
      is_closed = i.is_closed;
      numbers = i.numbers;
      messages = i.backlog.messages;
      carried = i.backlog.carried;
    } };
}

impl Ingress {
    /// The open end of the link from one node at another, on which nothing was admitted.
    pub fn new(alloc: Global, from: NodeId, at: NodeId) -> Ingress
        requires { from ≢ at }
        ensures link { (result.at ≡ at) × (result.from ≡ from) × (result.is_closed ≡ false) }
        ensures numbers { (k : ℕ) → is_admitted result k ≡ false }
        ensures messages { result.messages ≡ [] }
        ensures carried { result.carried ≡ [] }
    {
        Ingress {
            alloc,
            at,
            from,
            is_closed: false,
            numbers: Numbers::new(alloc),
            backlog: Backlog::new(alloc),
        }
    }

    /// A copy of the message with this number comes to the actor. Each number is admitted once, and counts then in the
    /// window that comes next. `Admitted` alone changes anything; `NoMemory` comes only where it would be admitted, and all
    /// is then as before. Logarithmic time in the runs of admitted numbers, and amortized constant time for each reference
    /// on average.
    pub fn admit(&mut self, number: u32, to: ActorId, refs: &[ActorId]) -> Result<Admit, NoMemory>
        requires messages { message_count to self.old.messages + 1 < 2 ^ 32 }
        requires carried { (a : Actor) → carried_count to a self.old.carried + count_by (same_actor a) refs.now < 2 ^ 32 }
        ensures ok { IfOk result (λ answer. Answered self.old self.new number to refs.now answer) }
        ensures err { OnErr result (self.new ≡ self.old) }
        ensures fresh { OnErr result ((self.old.is_closed ≡ false) × (is_admitted self.old number ≡ false)) }
    {
        if self.is_closed {
            return Ok(Admit::Closed);
        }
        if self.numbers.contains(number) {
            return Ok(Admit::Discarded);
        }
        if self.backlog.reserve(refs.len() + 1).is_err() {
            return Err(NoMemory);
        }
        if self.numbers.insert(number).is_err() {
            return Err(NoMemory);
        }
        self.backlog.note(to, refs);
        Ok(Admit::Admitted)
    }

    /// How many different actors the next window will name. Constant time.
    pub fn named(&self) -> usize
        ensures { result ≡ named_count self.now.messages self.now.carried }
    {
        self.backlog.named()
    }

    /// What was admitted since the last window; None exactly where nothing was. Time in proportion to n log n for n
    /// messages and references, without memory.
    pub fn cut_window(&mut self) -> Option<Window>
        requires { self.old.is_closed ≡ false }
        ensures some { IfSome result (λ w. IsWindowOf self.old w) }
        ensures admitted { OnSome result (0 < length self.old.messages) }
        ensures after { OnSome result (self.new ≡ emptied self.old) }
        ensures none { IfNone result ((self.old.messages ≡ []) × (self.old.carried ≡ [])) }
        ensures unchanged { IfNone result (self.new ≡ self.old) }
    {
        if self.backlog.is_empty() {
            return None;
        }
        Some(self.take_window())
    }

    /// What was admitted since the last window, perhaps nothing. Nothing is admitted from then on. Time in proportion to
    /// n log n for n messages and references, without memory.
    pub fn close(&mut self) -> Window
        requires { self.old.is_closed ≡ false }
        ensures window { IsWindowOf self.old result }
        ensures after { self.new ≡ record (emptied self.old) { is_closed = true } }
    {
        self.is_closed = true;
        self.take_window()
    }

    fn take_window(&mut self) -> Window
        ensures window { IsWindowOf self.old result }
        ensures after { self.new ≡ emptied self.old }
    {
        let backlog = mem::replace(&mut self.backlog, Backlog::new(self.alloc));
        let (messages, carried) = backlog.into_sums();
        Window {
            at: self.at,
            from: self.from,
            messages,
            carried,
        }
    }
}
