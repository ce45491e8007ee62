//! The acts of turns.
ghost use Rattle.std.specs.Prelude.{◌≡◌, ◌∷◌, [], IfErr, IfOk, None, OnErr, OnOk, Some};
ghost use Rattle.behaviour_lang.specs.declared.act.Act.TheVariants as acts;
ghost use Rattle.operation_model.specs.declared.operations.Op.TheVariants as ops;
ghost use Rattle.operation_model.specs.declared.replies.Reply.TheVariants as replies;
ghost use Rattle.world_object.specs.Answering.{Halts, HaltsBefore, Happens, IsDone, refused_by};
ghost use Rattle.world_object.specs.Standing.{Stands};
ghost use Rattle.world_object.specs.Turns.{IsNext, IsPlainAct};

use crate::parts::ClusterParts;
use behaviour_lang::Act;
use crgc_ids::{ActorId, Which};
use history_model::Event;
use operation_model::{Halt, Reply};
use script_actors::laws::acts_leave_the_actors;
use script_progress::laws::other_events_leave_the_progress;

impl ClusterParts {
    /// The act, which is due in the actor's turn, happens.
    pub(crate) fn act(&mut self, actor: ActorId, act: Act) -> Result<Reply, Halt>
        requires stands { Stands self.old }
        requires may { refused_by self.old (ops.Act actor act) ≡ None }
        requires next { IsNext self.old actor (Some act) }
        ensures stands { Stands self.new }
        ensures ok { IfOk result (IsDone (ops.Act actor act) self.old self.new) }
        ensures err { OnErr result (self.new ≡ self.old) }
        ensures halt { IfErr result (Halts self.old (ops.Act actor act)) }
    {
        match act {
            Act::Spawn { behaviour } => self.spawn(actor, behaviour),
            Act::Send { to, refs } => {
                let from = actor;
                self.act_plainly(actor, &Event::Send { from, to, refs })
            }
            Act::Drop { target } => self.act_plainly(actor, &Event::Drop { actor, target }),
            Act::Retire => self.act_plainly(actor, &Event::Retire { actor }),
        }
    }

    /// A child is born with that behaviour.
    fn spawn(&mut self, actor: ActorId, behaviour: u32) -> Result<Reply, Halt>
        requires stands { Stands self.old }
        requires may { refused_by self.old (ops.Act actor (acts.Spawn behaviour)) ≡ None }
        requires next { IsNext self.old actor (Some (acts.Spawn behaviour)) }
        ensures stands { Stands self.new }
        ensures ok { IfOk result (IsDone (ops.Act actor (acts.Spawn behaviour)) self.old self.new) }
        ensures err { OnErr result (self.new ≡ self.old) }
        ensures halt { IfErr result (Halts self.old (ops.Act actor (acts.Spawn behaviour))) }
    {
        acts_leave_the_actors();
        other_events_leave_the_progress();
        let Some(child) = ActorId::new(actor.node(), self.world.born(actor.node())) else {
            return Err(Halt::Limit(Which::Actors));
        };
        if self.actors.born(child, behaviour).is_err() {
            return Err(Halt::Memory);
        }
        match self.make(&Event::Spawn { parent: actor }) {
            Ok(_) => Ok(Reply::Born(child)),
            Err(halt) => {
                self.actors.take_back(child);
                Err(halt)
            }
        }
    }

    /// An act happens that gives birth to nobody.
    fn act_plainly(&mut self, actor: ActorId, event: &Event) -> Result<Reply, Halt>
        requires stands { Stands self.old }
        requires plain { IsPlainAct self.old actor event.now }
        ensures stands { Stands self.new }
        ensures reply { IfOk result (λ r. r ≡ replies.Done) }
        ensures ok { OnOk result (Happens (event.now ∷ []) self.old self.new) }
        ensures err { OnErr result (self.new ≡ self.old) }
        ensures halt { IfErr result (HaltsBefore self.old (event.now ∷ [])) }
    {
        acts_leave_the_actors();
        other_events_leave_the_progress();
        match self.make(event) {
            Ok(_) => Ok(Reply::Done),
            Err(halt) => Err(halt),
        }
    }
}
