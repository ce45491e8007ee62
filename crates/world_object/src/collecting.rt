//! What collectors are given, and what they find.
ghost use Rattle.std.specs.Prelude.{◌≡◌, ◌<◌, ℕ, length, IfErr, IfOk, None, OnErr};
ghost use Rattle.operation_model.specs.declared.operations.Op.TheVariants as ops;
ghost use Rattle.true_config.specs.Promises.{IsFoundBySweep};
ghost use Rattle.world_object.specs.Answering.{Halts, IsDone, IsGrantedTo, refused_by};
ghost use Rattle.world_object.specs.Standing.{Stands};
ghost use Rattle.history_model.specs.Streams.{stream};
ghost use Rattle.run_model.specs.Doing.{cluster_of};
ghost use Rattle.world_object.specs.Searching.{SpellsNumber};

use crate::parts::ClusterParts;
use crgc_ids::{NoMemory, NodeId, Octets};
use history_model::{Event, Verdict};
use operation_model::{Halt, Reply};
use true_config::Applied;

impl ClusterParts {
    /// The bulletin is handed to the node; the answer is its spelling.
    pub(crate) fn hand(&mut self, node: NodeId, origin: NodeId, number: u32) -> Result<Reply, Halt>
        requires stands { Stands self.old }
        requires may { refused_by self.old (ops.Hand node origin number) ≡ None }
        ensures stands { Stands self.new }
        ensures ok { IfOk result (IsDone (ops.Hand node origin number) self.old self.new) }
        ensures err { OnErr result (self.new ≡ self.old) }
        ensures halt { IfErr result (Halts self.old (ops.Hand node origin number)) }
    {
        self.world.keep_spelling(origin, number);
        let Ok(bytes) = self.bytes_of(origin, number) else {
            return Err(Halt::Memory);
        };
        let to = node;
        match self.done(&Event::Hand { to, origin, number }) {
            Ok(_) => Ok(Reply::Bytes(bytes)),
            Err(halt) => Err(halt),
        }
    }

    /// The spelling of the bulletin.
    fn bytes_of(&self, origin: NodeId, number: u32) -> Result<Octets, NoMemory>
        requires stands { Stands self.now }
        requires number { number < length (stream (cluster_of self.now.script.value) origin self.now.world.past) }
        ensures { IfOk result (SpellsNumber self.now.script.value self.now.world.past origin number) }
    {
        self.world.spell(origin, number)
    }

    /// The actors that the verdict names are stopped, and the verdict is kept.
    pub(crate) fn sweep(&mut self, verdict: Verdict) -> Result<Reply, Halt>
        requires stands { Stands self.old }
        requires may { refused_by self.old (ops.Sweep verdict) ≡ None }
        requires found { IsFoundBySweep self.old.world verdict }
        ensures stands { Stands self.new }
        ensures ok { (pass : ℕ) → IfOk result (IsGrantedTo pass (ops.Sweep verdict) self.old self.new) }
        ensures err { OnErr result (self.new ≡ self.old) }
        ensures halt { IfErr result (Halts self.old (ops.Sweep verdict)) }
    {
        if self.verdicts.keep(verdict).is_err() {
            return Err(Halt::Memory);
        }
        match self.world.sweep(self.verdicts.last()) {
            Ok(Applied::Done(_)) => Ok(Reply::Done),
            Ok(Applied::Illegal(_)) => unreachable!(),
            Ok(Applied::Limit(which)) => {
                self.verdicts.take_back();
                Err(Halt::Limit(which))
            }
            Err(_) => {
                self.verdicts.take_back();
                Err(Halt::Memory)
            }
        }
    }
}
