//! Why an operation is not done.
ghost use Rattle.std.specs.Prelude.{◌≡◌, ◌∷◌, ◌++◌, [], is_none, not, nat_lt, None};
ghost use Rattle.history_model.specs.Legal.{has_nothing};
ghost use Rattle.run_model.specs.Planned.{is_possible};
ghost use Rattle.operation_model.specs.Answers.{down, first_refusal, unknown, when};
ghost use Rattle.operation_model.specs.Courses.{next_carried, next_removal, next_window};
ghost use Rattle.operation_model.specs.declared.operations.Op.TheVariants as ops;
ghost use Rattle.operation_model.specs.declared.replies.Reply.TheVariants as replies;
ghost use Rattle.world_object.specs.Answering.{refused_by};
ghost use Rattle.world_object.specs.Standing.{Stands};

use crate::parts::ClusterParts;
use crgc_ids::{ActorId, NodeId};
use history_model::Event;
use operation_model::{Op, Reply, Why};

impl ClusterParts {
    /// Why the operation is not done; None exactly where it is granted.
    pub(crate) fn refusal(&self, op: &Op) -> Option<Reply>
        requires { Stands self.now }
        ensures { result ≡ refused_by self.now op.now }
    {
        match op {
            Op::Claim { node } => self.claim_refusal(*node),
            Op::Wake => self.wake_refusal(),
            Op::Take { actor } => self.take_refusal(*actor),
            Op::Act { actor, .. } => self.node_refusal(actor.node()),
            Op::Rest { actor, .. } => self.node_refusal(actor.node()),
            Op::Flush { actor } => {
                let actor = *actor;
                self.event_refusal(actor.node(), &Event::Flush { actor })
            }
            Op::Publish { node } => {
                let node = *node;
                self.event_refusal(node, &Event::Publish { node })
            }
            Op::Window { at } => self.window_refusal(*at),
            Op::Remove { at } => self.removal_refusal(*at),
            Op::Carry { from, at } => self.carry_refusal(*from, *at),
            Op::Hand {
                node,
                origin,
                number,
            } => self.hand_refusal(*node, *origin, *number),
            Op::Sweep { verdict } => self.node_refusal(verdict.node),
            Op::GiveUp => None,
            Op::Refill { skip } => self.refill_refusal(*skip),
            Op::Finished => self.finished_refusal(),
        }
    }

    /// Whether the cluster has no such node.
    fn is_unknown(&self, node: NodeId) -> bool
        requires { Stands self.now }
        ensures { result ≡ not (nat_lt node self.now.script.value.nodes) }
    {
        node.get() >= self.world.nodes()
    }

    /// Why nothing happens on the node.
    fn node_refusal(&self, node: NodeId) -> Option<Reply>
        requires { Stands self.now }
        ensures { result ≡ first_refusal (unknown self.now.script.value.nodes (node ∷ []) ++ down node self.now.world.past ∷ []) }
    {
        if self.is_unknown(node) {
            return Some(Reply::Nothing);
        }
        if !self.world.is_up(node) {
            return Some(Reply::Down(node));
        }
        None
    }

    /// Why the event does not happen on the node.
    fn event_refusal(&self, node: NodeId, event: &Event) -> Option<Reply>
        requires { Stands self.now }
        ensures { result ≡ first_refusal (unknown self.now.script.value.nodes (node ∷ []) ++ down node self.now.world.past
            ∷ when (not (is_possible self.now.script.value event.now self.now.world.past)) replies.Nothing ∷ []) }
    {
        if self.is_unknown(node) {
            return Some(Reply::Nothing);
        }
        if !self.world.is_up(node) {
            return Some(Reply::Down(node));
        }
        if self.world.refusal(event).is_some() {
            return Some(Reply::Nothing);
        }
        None
    }

    /// Why the node is not claimed.
    fn claim_refusal(&self, node: NodeId) -> Option<Reply>
        requires { Stands self.now }
        ensures { result ≡ refused_by self.now (ops.Claim node) }
    {
        if self.is_unknown(node) {
            return Some(Reply::Nothing);
        }
        match self.claims[node.get() as usize] {
            Some(pass) => Some(Reply::Claimed(pass)),
            None => None,
        }
    }

    /// Why nobody is woken.
    fn wake_refusal(&self) -> Option<Reply>
        requires { Stands self.now }
        ensures { result ≡ refused_by self.now ops.Wake }
    {
        if !self.progress.is_within_budget() {
            return Some(Reply::Over);
        }
        if self.next_wake().is_none() {
            return Some(Reply::Nothing);
        }
        None
    }

    /// Why the actor takes no message.
    fn take_refusal(&self, actor: ActorId) -> Option<Reply>
        requires { Stands self.now }
        ensures { result ≡ refused_by self.now (ops.Take actor) }
    {
        let node = actor.node();
        if self.is_unknown(node) {
            return Some(Reply::Nothing);
        }
        if !self.world.is_up(node) {
            return Some(Reply::Down(node));
        }
        if !self.progress.is_within_budget() {
            return Some(Reply::Over);
        }
        if self.world.is_busy(actor) {
            return Some(Reply::NotReady(Why::Busy));
        }
        if !self.world.has_mail(actor) {
            return Some(Reply::NotReady(Why::NoMail));
        }
        None
    }

    /// Why the node cuts no window.
    fn window_refusal(&self, at: NodeId) -> Option<Reply>
        requires { Stands self.now }
        ensures { result ≡ refused_by self.now (ops.Window at) }
    {
        if self.is_unknown(at) {
            return Some(Reply::Nothing);
        }
        if !self.world.is_up(at) {
            return Some(Reply::Down(at));
        }
        if self.next_window(at).is_none() {
            return Some(Reply::Nothing);
        }
        None
    }

    /// Why the node removes no other.
    fn removal_refusal(&self, at: NodeId) -> Option<Reply>
        requires { Stands self.now }
        ensures { result ≡ refused_by self.now (ops.Remove at) }
    {
        if self.is_unknown(at) {
            return Some(Reply::Nothing);
        }
        if !self.world.is_up(at) {
            return Some(Reply::Down(at));
        }
        if self.next_removal(at).is_none() {
            return Some(Reply::Nothing);
        }
        None
    }

    /// Why nothing is carried on the link.
    fn carry_refusal(&self, from: NodeId, at: NodeId) -> Option<Reply>
        requires { Stands self.now }
        ensures { result ≡ refused_by self.now (ops.Carry from at) }
    {
        if self.is_unknown(from) || self.is_unknown(at) {
            return Some(Reply::Nothing);
        }
        if self.next_carried(from, at).is_none() {
            return Some(Reply::Nothing);
        }
        None
    }

    /// Why no bulletin is handed to the node.
    fn hand_refusal(&self, node: NodeId, origin: NodeId, number: u32) -> Option<Reply>
        requires { Stands self.now }
        ensures { result ≡ refused_by self.now (ops.Hand node origin number) }
    {
        if self.is_unknown(node) || self.is_unknown(origin) {
            return Some(Reply::Nothing);
        }
        if !self.world.is_up(node) {
            return Some(Reply::Down(node));
        }
        if number >= self.world.stream_len(origin) {
            return Some(Reply::Nothing);
        }
        None
    }

    /// Why no actors are told.
    fn refill_refusal(&self, skip: u32) -> Option<Reply>
        requires { Stands self.now }
        ensures { result ≡ refused_by self.now (ops.Refill skip) }
    {
        match self.ready(skip) {
            Some(_) => None,
            None => Some(Reply::Nothing),
        }
    }

    /// What is left to do.
    fn finished_refusal(&self) -> Option<Reply>
        requires { Stands self.now }
        ensures { result ≡ refused_by self.now ops.Finished }
    {
        let busy = self.world.busy_count() as u64;
        let waiting = self.world.live_count();
        let planned = self.planned();
        if busy != 0 || self.progress.is_within_budget() && (waiting != 0 || planned != 0) {
            return Some(Reply::NotYet {
                busy,
                waiting,
                planned,
            });
        }
        None
    }
}
