//! Turns of behaviours.
ghost use Rattle.std.specs.Prelude.{◌≡◌, ◌<◌, ◌≤◌, true, false, length, Some, None, OnOk, OnErr, IfOk, IsSome, is_some};
ghost use Rattle.behaviour_lang.specs.Bound.{local_names, names_at_start};
ghost use Rattle.behaviour_lang.specs.Steps.{after_step, next_step, with_child};
ghost use Rattle.behaviour_lang.specs.TurnState.{at_start, instrs_of, is_end, is_spawn, left_of};

use crate::act::{List, Step};
use crate::bound::BoundNames;
use crate::code::Code;
use crate::instr::Instr;
use crate::locals::Locals;
use crate::run::Run;
use crgc_ids::{ActorId, NoMemory, RefList};
use std::alloc::Global;
use std::marker::Model;

/// A turn of a behaviour, which stops at each step. It keeps its allocator. Contracts see which list of which behaviour it
/// runs, how much of it is done, the bound names, whether the actor is a root, what birth is owed, and whether it ended.
#[derive(Debug, Drop)]
pub struct Turn {
    behaviour: u32,
    list: List,
    run: Run,
    ended: bool,
}

impl Model for Turn {
    ghost use Rattle.behaviour_lang.specs.TurnState.{IsSound, TurnState, state_of};

    ghost Value = { TurnState };

    ghost view = { λ t. state_of t.behaviour t.list t.run t.ended };

    ghost invariant = { λ t. IsSound t.run t.ended };
}

impl Turn {
    /// A turn of the behaviour with that number, by its list for a wake or for a message with these references, at most 16.
    /// Constant time.
    pub fn begin(
        alloc: Global,
        code: &Code,
        behaviour: u32,
        list: List,
        locals: Locals,
        refs: RefList,
        root: bool,
    ) -> Result<Turn, NoMemory>
        requires in_code { behaviour < length code.now }
        requires refs { length refs ≤ 16 }
        ensures { IfOk result (λ t. t ≡ at_start behaviour list (names_at_start refs locals) root) }
    {
        let _ = code;
        Ok(Turn {
            behaviour,
            list,
            run: Run {
                names: BoundNames::begin(locals, refs),
                position: 0,
                root,
                owed: None,
                alloc,
            },
            ended: false,
        })
    }

    /// The next step; `code` is that with which the turn began. After a spawn a birth is owed. Logarithmic time in the number of names for each name of the
    /// instructions that are done.
    pub fn next(&mut self, code: &Code) -> Result<Step, NoMemory>
        requires running { self.old.ended ≡ false }
        requires none_owed { self.old.owed ≡ None }
        requires in_code { self.old.behaviour < length code.now }
        ensures step { IfOk result (λ s. s ≡ next_step (left_of code.now self.old)) }
        ensures after { OnOk result (left_of code.now self.new ≡ after_step (left_of code.now self.old)) }
        ensures behaviour { self.new.behaviour ≡ self.old.behaviour }
        ensures list { self.new.list ≡ self.old.list }
        ensures ended { IfOk result (λ s. self.new.ended ≡ is_end s) }
        ensures owed { IfOk result (λ s. is_some self.new.owed ≡ is_spawn s) }
        ensures err { OnErr result (self.new ≡ self.old) }
    {
        let instrs = instrs_of(code, self.behaviour, self.list);
        match self.run.next(instrs) {
            Ok(Step::End) => {
                self.ended = true;
                Ok(Step::End)
            }
            Ok(step) => Ok(step),
            Err(fault) => Err(fault),
        }
    }

    /// The child that is owed is born, and its name is bound to it. After `NoMemory` all is as before. Logarithmic time in
    /// the number of names.
    pub fn born(&mut self, child: ActorId) -> Result<(), NoMemory>
        requires { IsSome self.old.owed }
        ensures ok { OnOk result (self.new ≡ record self.old { names = with_child self.old.owed child self.old.names; owed = None }) }
        ensures err { OnErr result (self.new ≡ self.old) }
    {
        if let Some(name) = self.run.owed {
            match self.run.names.bind(name, child) {
                Ok(()) => {}
                Err(fault) => return Err(fault),
            }
        }
        self.run.owed = None;
        Ok(())
    }

    /// The names that are still bound, which stay for the next turn. Constant time.
    pub fn finish(self) -> Locals
        requires { self.ended ≡ true }
        ensures { local_names result ≡ self.names }
    {
        let run = self.run;
        let names = run.names;
        names.locals
    }
}

// The list of the behaviour with that number.
fn instrs_of(code: &Code, behaviour: u32, list: List) -> &[Instr]
    requires { behaviour < length code.now }
    ensures { result.now ≡ instrs_of code.now behaviour list }
{
    match code.behaviours.get(behaviour as usize) {
        Some(found) => match list {
            List::Wake => found.wake.as_slice(),
            List::Message => found.message.as_slice(),
        },
        None => &[],
    }
}
