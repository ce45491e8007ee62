//! What happens to copies on links.
ghost use Rattle.std.specs.Prelude.{◌≡◌, ◌∷◌, [], IfErr, IfOk, None, OnErr, OnOk, true};
ghost use Rattle.history_model.specs.declared.events.Event.TheVariants as events;
ghost use Rattle.history_model.specs.Legal.{refusal};
ghost use Rattle.run_model.specs.Doing.{cluster_of};
ghost use Rattle.run_model.specs.Planned.{has_row};
ghost use Rattle.operation_model.specs.declared.operations.Op.TheVariants as ops;
ghost use Rattle.world_object.specs.Answering.{Halts, HaltsBefore, IsDone, Makes, refused_by};
ghost use Rattle.script_progress.specs.Used.{carried};
ghost use Rattle.world_object.specs.Searching.{HasRow};
ghost use Rattle.world_object.specs.Standing.{Stands};

use crate::parts::ClusterParts;
use crgc_ids::NodeId;
use history_model::Event;
use operation_model::{Halt, Reply};
use script_actors::laws::other_events_leave_the_actors;
use script_progress::Carry;
use script_progress::laws::other_events_leave_the_progress;

impl ClusterParts {
    /// What is planned for the lowest number on the link happens.
    pub(crate) fn carry(&mut self, from: NodeId, at: NodeId) -> Result<Reply, Halt>
        requires stands { Stands self.old }
        requires may { refused_by self.old (ops.Carry from at) ≡ None }
        ensures stands { Stands self.new }
        ensures ok { IfOk result (IsDone (ops.Carry from at) self.old self.new) }
        ensures err { OnErr result (self.new ≡ self.old) }
        ensures halt { IfErr result (Halts self.old (ops.Carry from at)) }
    {
        let (carry, number) = self.next_carried(from, at).unwrap();
        match self.carry_copy(from, at, carry, number) {
            Ok(()) => Ok(Reply::Done),
            Err(halt) => Err(halt),
        }
    }

    /// That happens to the copy, as the plan says.
    fn carry_copy(
        &mut self,
        from: NodeId,
        at: NodeId,
        carry: Carry,
        number: u32,
    ) -> Result<(), Halt>
        requires stands { Stands self.old }
        requires legal { refusal (cluster_of self.old.script.value) (carried carry from at number) self.old.world.past ≡ None }
        requires left { HasRow self.old from at number carry }
        ensures stands { Stands self.new }
        ensures ok { OnOk result (Makes (carried carry from at number ∷ []) self.old self.new) }
        ensures err { OnErr result (self.new ≡ self.old) }
        ensures halt { IfErr result (HaltsBefore self.old (carried carry from at number ∷ [])) }
    {
        match carry {
            Carry::Repeat => self.repeat(from, at, number),
            Carry::Lose => self.lose(from, at, number),
            Carry::Admit => self.admit(from, at, number),
        }
    }

    /// The copy is doubled, as a row of the plan says.
    fn repeat(&mut self, from: NodeId, at: NodeId, number: u32) -> Result<(), Halt>
        requires stands { Stands self.old }
        requires legal { refusal (cluster_of self.old.script.value) (events.Repeat from at number) self.old.world.past ≡ None }
        requires left { has_row from at number self.old.progress.plan.repeats ≡ true }
        ensures stands { Stands self.new }
        ensures ok { OnOk result (Makes (events.Repeat from at number ∷ []) self.old self.new) }
        ensures err { OnErr result (self.new ≡ self.old) }
        ensures halt { IfErr result (HaltsBefore self.old (events.Repeat from at number ∷ [])) }
    {
        match self.make(&Event::Repeat { from, at, number }) {
            Ok(_) => {
                other_events_leave_the_actors();
                self.progress.repeats(from, at, number);
                Ok(())
            }
            Err(halt) => Err(halt),
        }
    }

    /// The copy is lost, as a row of the plan says.
    fn lose(&mut self, from: NodeId, at: NodeId, number: u32) -> Result<(), Halt>
        requires stands { Stands self.old }
        requires legal { refusal (cluster_of self.old.script.value) (events.Lose from at number) self.old.world.past ≡ None }
        requires left { has_row from at number self.old.progress.plan.losses ≡ true }
        ensures stands { Stands self.new }
        ensures ok { OnOk result (Makes (events.Lose from at number ∷ []) self.old self.new) }
        ensures err { OnErr result (self.new ≡ self.old) }
        ensures halt { IfErr result (HaltsBefore self.old (events.Lose from at number ∷ [])) }
    {
        match self.make(&Event::Lose { from, at, number }) {
            Ok(_) => {
                other_events_leave_the_actors();
                self.progress.loses(from, at, number);
                Ok(())
            }
            Err(halt) => Err(halt),
        }
    }

    /// The copy is admitted.
    fn admit(&mut self, from: NodeId, at: NodeId, number: u32) -> Result<(), Halt>
        requires stands { Stands self.old }
        requires legal { refusal (cluster_of self.old.script.value) (events.Admit from at number) self.old.world.past ≡ None }
        ensures stands { Stands self.new }
        ensures ok { OnOk result (Makes (events.Admit from at number ∷ []) self.old self.new) }
        ensures err { OnErr result (self.new ≡ self.old) }
        ensures halt { IfErr result (HaltsBefore self.old (events.Admit from at number ∷ [])) }
    {
        other_events_leave_the_actors();
        other_events_leave_the_progress();
        match self.make(&Event::Admit { from, at, number }) {
            Ok(_) => Ok(()),
            Err(halt) => Err(halt),
        }
    }
}
