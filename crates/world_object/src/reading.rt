//! What a cluster tells of itself.
ghost use Rattle.std.specs.Prelude.{◌≡◌, drop, take, IfErr, IfOk};
ghost use Rattle.operation_model.specs.Answers.{ready};
ghost use Rattle.operation_model.specs.declared.replies.Halt.TheVariants.{Memory};
ghost use Rattle.operation_model.specs.declared.operations.TheConstants.{ACTORS_PER_REFILL};
ghost use Rattle.operation_model.specs.declared.replies.Reply.TheVariants as replies;
ghost use Rattle.world_object.specs.Standing.{Stands};

use crate::parts::ClusterParts;
use crgc_ids::{ActorList, NoMemory};
use operation_model::{ACTORS_PER_REFILL, Halt, Reply};

impl ClusterParts {
    /// The actors that may take a message, rising, without so many before them, and 32 at most.
    pub(crate) fn refill(&self, skip: u32) -> Result<Reply, Halt>
        requires { Stands self.now }
        ensures ids { IfOk result (λ r. r ≡ replies.Ids
            (take ACTORS_PER_REFILL (drop skip (ready self.now.script.value self.now.world.past)))) }
        ensures memory { IfErr result (λ why. why ≡ Memory) }
    {
        match self.ready_actors(skip) {
            Ok(actors) => Ok(Reply::Ids(actors)),
            Err(_) => Err(Halt::Memory),
        }
    }

    /// So many actors that may take a message, without those that are skipped.
    fn ready_actors(&self, skip: u32) -> Result<ActorList, NoMemory>
        requires { Stands self.now }
        ensures { IfOk result (λ xs. xs ≡ take ACTORS_PER_REFILL (drop skip (ready self.now.script.value self.now.world.past))) }
    {
        let mut actors = ActorList::new(self.alloc);
        let mut next = self.ready(skip);
        for _ in 0..ACTORS_PER_REFILL {
            let Some(actor) = next else {
                return Ok(actors);
            };
            actors.push(actor)?;
            next = self.world.next_ready(Some(actor));
        }
        Ok(actors)
    }
}
