//! What nodes tell: flushes, publishes, windows and removals.
ghost use Rattle.std.specs.Prelude.{◌≡◌, ◌∷◌, [], option_to_list, false, true, if◌then◌else◌, IfErr, IfOk, None, OnErr, OnOk, Some};
ghost use Rattle.history_model.specs.declared.events.Event.TheVariants as events;
ghost use Rattle.history_model.specs.Legal.{refusal};
ghost use Rattle.run_model.specs.Doing.{cluster_of};
ghost use Rattle.run_model.specs.Follows.{added};
ghost use Rattle.run_model.specs.Round.{is_of_round};
ghost use Rattle.operation_model.specs.Answers.{AreLegal};
ghost use Rattle.operation_model.specs.declared.operations.Op.TheVariants as ops;
ghost use Rattle.operation_model.specs.declared.replies.Reply.TheVariants as replies;
ghost use Rattle.true_config.specs.Applying.{is_sweep};
ghost use Rattle.world_object.specs.Answering.{Halts, HaltsBefore, Happens, IsDone, refused_by};
ghost use Rattle.world_object.specs.Standing.{Stands};

use crate::parts::ClusterParts;
use crgc_ids::{ActorId, NodeId};
use history_model::Event;
use operation_model::{Halt, Reply};
use run_model::round_laws::FLUSHES_PER_PUBLISH;

impl ClusterParts {
    /// What the actor noted goes to its node's queue; where that then has 32 entries, it is published.
    pub(crate) fn flush(&mut self, actor: ActorId) -> Result<Reply, Halt>
        requires stands { Stands self.old }
        requires may { refused_by self.old (ops.Flush actor) ≡ None }
        ensures stands { Stands self.new }
        ensures ok { IfOk result (IsDone (ops.Flush actor) self.old self.new) }
        ensures err { OnErr result (self.new ≡ self.old) }
        ensures halt { IfErr result (Halts self.old (ops.Flush actor)) }
    {
        match self.tell(actor) {
            Ok(()) => Ok(Reply::Done),
            Err(halt) => Err(halt),
        }
    }

    /// The flush happens, and the publish that is due with it.
    fn tell(&mut self, actor: ActorId) -> Result<(), Halt>
        requires stands { Stands self.old }
        requires legal { AreLegal self.old.script.value (events.Flush actor
            ∷ option_to_list (added self.old.script.value (events.Flush actor) self.old.world.past)) self.old.world.past }
        ensures ok { OnOk result (Happens (events.Flush actor
            ∷ option_to_list (added self.old.script.value (events.Flush actor) self.old.world.past)) self.old self.new) }
        ensures err { OnErr result (self.new ≡ self.old) }
        ensures halt { IfErr result (HaltsBefore self.old (events.Flush actor
            ∷ option_to_list (added self.old.script.value (events.Flush actor) self.old.world.past))) }
    {
        let node = actor.node();
        if self.is_publish_due(actor) {
            return self.make_both(&Event::Flush { actor }, &Event::Publish { node });
        }
        match self.make(&Event::Flush { actor }) {
            Ok(_) => Ok(()),
            Err(halt) => Err(halt),
        }
    }

    /// Whether a publish is due to the flush of the actor: its node's queue then has 32 entries.
    fn is_publish_due(&self, actor: ActorId) -> bool
        ensures { added self.now.script.value (events.Flush actor) self.now.world.past
            ≡ (if result then Some (events.Publish actor.node) else None) }
    {
        self.world.queue_len(actor.node()) == FLUSHES_PER_PUBLISH - 1
    }

    /// The node's queue becomes a bulletin.
    pub(crate) fn publish(&mut self, node: NodeId) -> Result<Reply, Halt>
        requires stands { Stands self.old }
        requires may { refused_by self.old (ops.Publish node) ≡ None }
        ensures stands { Stands self.new }
        ensures ok { IfOk result (IsDone (ops.Publish node) self.old self.new) }
        ensures err { OnErr result (self.new ≡ self.old) }
        ensures halt { IfErr result (Halts self.old (ops.Publish node)) }
    {
        self.done(&Event::Publish { node })
    }

    /// The lowest window that the node may cut.
    pub(crate) fn window(&mut self, at: NodeId) -> Result<Reply, Halt>
        requires stands { Stands self.old }
        requires may { refused_by self.old (ops.Window at) ≡ None }
        ensures stands { Stands self.new }
        ensures ok { IfOk result (IsDone (ops.Window at) self.old self.new) }
        ensures err { OnErr result (self.new ≡ self.old) }
        ensures halt { IfErr result (Halts self.old (ops.Window at)) }
    {
        let from = self.next_window(at).unwrap();
        self.done(&Event::Window { at, from })
    }

    /// The lowest removal that the node may make.
    pub(crate) fn remove(&mut self, at: NodeId) -> Result<Reply, Halt>
        requires stands { Stands self.old }
        requires may { refused_by self.old (ops.Remove at) ≡ None }
        ensures stands { Stands self.new }
        ensures ok { IfOk result (IsDone (ops.Remove at) self.old self.new) }
        ensures err { OnErr result (self.new ≡ self.old) }
        ensures halt { IfErr result (Halts self.old (ops.Remove at)) }
    {
        let gone = self.next_removal(at).unwrap();
        self.done(&Event::Remove { at, gone })
    }

    /// The event, which is of no turn and uses nothing of the plan, happens.
    pub(crate) fn done(&mut self, event: &Event) -> Result<Reply, Halt>
        requires stands { Stands self.old }
        requires legal { refusal (cluster_of self.old.script.value) event.now self.old.world.past ≡ None }
        requires no_sweep { is_sweep event.now ≡ false }
        requires of_round { is_of_round event.now ≡ true }
        ensures stands { Stands self.new }
        ensures reply { IfOk result (λ r. r ≡ replies.Done) }
        ensures ok { OnOk result (Happens (event.now ∷ []) self.old self.new) }
        ensures err { OnErr result (self.new ≡ self.old) }
        ensures halt { IfErr result (HaltsBefore self.old (event.now ∷ [])) }
    {
        match self.make(event) {
            Ok(_) => Ok(Reply::Done),
            Err(halt) => Err(halt),
        }
    }
}
