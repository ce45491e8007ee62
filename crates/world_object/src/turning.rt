//! Turns.
ghost use Rattle.std.specs.Prelude.{◌≡◌, IfErr, IfOk, IsSome, None, OnErr};
ghost use Rattle.operation_model.specs.declared.operations.Op.TheVariants as ops;
ghost use Rattle.script_actors.specs.Table.{names_at};
ghost use Rattle.world_object.specs.Answering.{Halts, IsDone, refused_by};
ghost use Rattle.world_object.specs.Standing.{Stands};
ghost use Rattle.world_object.specs.Turns.{Begins};

use crate::making::refs_in;
use crate::parts::ClusterParts;
use behaviour_lang::List;
use crgc_ids::{ActorId, RefList};
use history_model::Event;
use operation_model::{Halt, Reply};

impl ClusterParts {
    /// The turn of the lowest seed that may wake begins.
    pub(crate) fn wake(&mut self) -> Result<Reply, Halt>
        requires stands { Stands self.old }
        requires may { refused_by self.old ops.Wake ≡ None }
        ensures stands { Stands self.new }
        ensures ok { IfOk result (IsDone ops.Wake self.old self.new) }
        ensures err { OnErr result (self.new ≡ self.old) }
        ensures halt { IfErr result (Halts self.old ops.Wake) }
    {
        let actor = self.next_wake().unwrap();
        let root = self.world.is_root(actor);
        match self.make(&Event::Wake { actor }) {
            Ok(_) => {
                self.progress.wakes(actor);
                let refs = RefList::new(self.alloc);
                Ok(self.begin_turn(actor, List::Wake, refs, root))
            }
            Err(halt) => Err(halt),
        }
    }

    /// The actor's turn begins, with the first message that waits for it.
    pub(crate) fn take(&mut self, actor: ActorId) -> Result<Reply, Halt>
        requires stands { Stands self.old }
        requires may { refused_by self.old (ops.Take actor) ≡ None }
        ensures stands { Stands self.new }
        ensures ok { IfOk result (IsDone (ops.Take actor) self.old self.new) }
        ensures err { OnErr result (self.new ≡ self.old) }
        ensures halt { IfErr result (Halts self.old (ops.Take actor)) }
    {
        let root = self.world.is_root(actor);
        match self.make(&Event::Take { actor }) {
            Ok(told) => {
                self.progress.takes();
                Ok(self.begin_turn(actor, List::Message, refs_in(told), root))
            }
            Err(halt) => Err(halt),
        }
    }

    /// The actor's names are given to its turn, and the answer tells with what it begins.
    fn begin_turn(&mut self, actor: ActorId, list: List, refs: RefList, root: bool) -> Reply
        requires { IsSome (names_at self.old.actors actor) }
        ensures { Begins actor list refs root self.old self.new result }
    {
        let behaviour = self.actors.behaviour(actor);
        let locals = self.actors.give_names(actor);
        Reply::Turn {
            actor,
            behaviour,
            list,
            locals,
            refs,
            root,
        }
    }
}
