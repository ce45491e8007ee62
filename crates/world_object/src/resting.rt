//! The ends of turns.
ghost use Rattle.std.specs.Prelude.{◌≡◌, ◌∷◌, [], option_to_list, IfErr, IfOk, None, OnErr, OnOk};
ghost use Rattle.history_model.specs.declared.events.Event.TheVariants as events;
ghost use Rattle.run_model.specs.Follows.{added};
ghost use Rattle.operation_model.specs.Answers.{AreLegal};
ghost use Rattle.operation_model.specs.declared.operations.Op.TheVariants as ops;
ghost use Rattle.world_object.specs.Answering.{Halts, HaltsBefore, Happens, IsDone, refused_by};
ghost use Rattle.world_object.specs.Standing.{Stands};
ghost use Rattle.world_object.specs.Turns.{IsNext, Keeps};

use crate::parts::ClusterParts;
use behaviour_lang::Locals;
use crgc_ids::ActorId;
use history_model::Event;
use operation_model::{Halt, Reply};
use script_actors::laws::other_events_leave_the_actors;
use script_progress::laws::{counts_have_room, other_events_leave_the_progress};

impl ClusterParts {
    /// The actor, whose turn is done, rests with these names, and the crash that is due then comes.
    pub(crate) fn rest(&mut self, actor: ActorId, locals: Locals) -> Result<Reply, Halt>
        requires stands { Stands self.old }
        requires may { refused_by self.old (ops.Rest actor locals) ≡ None }
        requires next { IsNext self.old actor None }
        requires keeps { Keeps self.old actor locals }
        ensures stands { Stands self.new }
        ensures ok { IfOk result (IsDone (ops.Rest actor locals) self.old self.new) }
        ensures err { OnErr result (self.new ≡ self.old) }
        ensures halt { IfErr result (Halts self.old (ops.Rest actor locals)) }
    {
        other_events_leave_the_actors();
        other_events_leave_the_progress();
        counts_have_room();
        self.world.is_lawful();
        match self.end(actor) {
            Ok(()) => {
                self.progress.ends(actor.node());
                self.actors.rest(actor, locals);
                Ok(Reply::Done)
            }
            Err(halt) => Err(halt),
        }
    }

    /// The rest happens, and the crash that is due with it.
    fn end(&mut self, actor: ActorId) -> Result<(), Halt>
        requires stands { Stands self.old }
        requires legal { AreLegal self.old.script.value (events.Rest actor
            ∷ option_to_list (added self.old.script.value (events.Rest actor) self.old.world.past)) self.old.world.past }
        ensures ok { OnOk result (Happens (events.Rest actor
            ∷ option_to_list (added self.old.script.value (events.Rest actor) self.old.world.past)) self.old self.new) }
        ensures err { OnErr result (self.new ≡ self.old) }
        ensures halt { IfErr result (HaltsBefore self.old (events.Rest actor
            ∷ option_to_list (added self.old.script.value (events.Rest actor) self.old.world.past))) }
    {
        let node = actor.node();
        if self.progress.crashes_next(node) {
            return self.make_both(&Event::Rest { actor }, &Event::Crash { node });
        }
        match self.make(&Event::Rest { actor }) {
            Ok(_) => Ok(()),
            Err(halt) => Err(halt),
        }
    }
}
