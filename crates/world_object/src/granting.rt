//! Operations that nothing hinders.
ghost use Rattle.std.specs.Prelude.{◌≡◌, IfErr, IfOk, None, OnErr};
ghost use Rattle.world_object.specs.Answering.{Halts, IsGrantedTo, refused_by};
ghost use Rattle.world_object.specs.Locked.{IsStep, MayStep};
ghost use Rattle.world_object.specs.Standing.{Stands, state_of};

use crate::parts::ClusterParts;
use operation_model::{Halt, Op, Reply};

impl ClusterParts {
    /// Makes an operation, for the pass of this number; where the cluster has halted, or halts now, the answer is why.
    pub(crate) fn step(&mut self, pass: u32, op: Op) -> Reply
        requires stands { Stands self.old }
        requires fits { MayStep (state_of self.old) pass op }
        ensures stands { Stands self.new }
        ensures step { IsStep (state_of self.old) pass op result (state_of self.new) }
    {
        match self.halt {
            Some(halt) => Reply::Halted(halt),
            None => self.answer(pass, op),
        }
    }

    /// Makes an operation in a cluster that has not halted.
    fn answer(&mut self, pass: u32, op: Op) -> Reply
        requires stands { Stands self.old }
        requires fits { MayStep (state_of self.old) pass op }
        requires goes_on { self.old.halt ≡ None }
        ensures stands { Stands self.new }
        ensures step { IsStep (state_of self.old) pass op result (state_of self.new) }
    {
        match self.refusal(&op) {
            Some(refusal) => refusal,
            None => self.carry_out(pass, op),
        }
    }

    /// Carries the operation out, which nothing hinders; where that cannot be, the cluster halts.
    fn carry_out(&mut self, pass: u32, op: Op) -> Reply
        requires stands { Stands self.old }
        requires fits { MayStep (state_of self.old) pass op }
        requires goes_on { self.old.halt ≡ None }
        requires may { refused_by self.old op ≡ None }
        ensures stands { Stands self.new }
        ensures step { IsStep (state_of self.old) pass op result (state_of self.new) }
    {
        match self.grant(pass, op) {
            Ok(reply) => reply,
            Err(halt) => {
                self.halt = Some(halt);
                Reply::Halted(halt)
            }
        }
    }

    /// The operation, which nothing hinders, happens; or the answer is why the cluster halts, and all is as before.
    fn grant(&mut self, pass: u32, op: Op) -> Result<Reply, Halt>
        requires stands { Stands self.old }
        requires fits { MayStep (state_of self.old) pass op }
        requires may { refused_by self.old op ≡ None }
        ensures stands { Stands self.new }
        ensures ok { IfOk result (IsGrantedTo pass op self.old self.new) }
        ensures err { OnErr result (self.new ≡ self.old) }
        ensures halt { IfErr result (Halts self.old op) }
    {
        match op {
            Op::Claim { node } => Ok(self.claim(node, pass)),
            Op::Wake => self.wake(),
            Op::Take { actor } => self.take(actor),
            Op::Act { actor, act } => self.act(actor, act),
            Op::Rest { actor, locals } => self.rest(actor, locals),
            Op::Flush { actor } => self.flush(actor),
            Op::Publish { node } => self.publish(node),
            Op::Window { at } => self.window(at),
            Op::Remove { at } => self.remove(at),
            Op::Carry { from, at } => self.carry(from, at),
            Op::Hand {
                node,
                origin,
                number,
            } => self.hand(node, origin, number),
            Op::Sweep { verdict } => self.sweep(verdict),
            Op::GiveUp => Err(Halt::Memory),
            Op::Refill { skip } => self.refill(skip),
            Op::Finished => Ok(Reply::AllDone),
        }
    }
}
