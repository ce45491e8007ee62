//! A turn that runs, one instruction after the other.
ghost use Rattle.std.specs.Prelude.{◌≡◌, ◌+◌, ◌^◌, ◌<◌, [], drop, List, length, OnOk, OnErr, Option, None, IfOk, IfSome, IfNone};
ghost use Rattle.behaviour_lang.specs.Running.{Does, IsMovedBy, IsStep};
ghost use Rattle.behaviour_lang.specs.declared.instr.Instr.{Instr as Instrs};
ghost use Rattle.behaviour_lang.specs.declared.run.Run.{Run as Runs};
ghost use Rattle.behaviour_lang.specs.declared.instr.Instr.TheVariants.{Drop as Drops, Keep as Keeps, Retire as Retires, Send as Sends, Spawn as Spawns};

use crate::act::{Act, Step};
use crate::bound::BoundNames;
use crate::instr::{Instr, Name, NameList};
use crate::local_name::LocalName;
use crgc_ids::NoMemory;
use std::alloc::Global;

/// What an instruction does: it makes a step, or it is passed; a `keep` that is passed may have moved a reference.
#[derive(Debug, Drop)]
pub(crate) enum Tried {
    Step(Step),
    Passed,
    Moved,
}

/// The bound names, how many instructions are done, whether the actor is a root, and the name that waits for a child.
#[derive(Debug, Drop)]
pub(crate) struct Run {
    pub(crate) names: BoundNames,
    pub(crate) position: usize,
    pub(crate) root: bool,
    pub(crate) owed: Option<LocalName>,
    pub(crate) alloc: Global,
}

impl Run {
    /// The next step. Logarithmic time in the number of names for each name of the instructions that are done.
    pub(crate) fn next(&mut self, instrs: &[Instr]) -> Result<Step, NoMemory>
        requires { self.old.owed ≡ None }
        ensures ok { IfOk result (IsStep instrs.now self.old self.new) }
        ensures err { OnErr result (self.new ≡ self.old) }
    {
        match instrs.get(self.position) {
            None => Ok(self.end()),
            Some(instr) => match self.run(instr) {
                Ok(Tried::Step(step)) => Ok(step),
                Ok(Tried::Passed) => match self.next(instrs) {
                    Ok(step) => Ok(step),
                    Err(fault) => {
                        self.position -= 1;
                        Err(fault)
                    }
                },
                Ok(Tried::Moved) => match self.next(instrs) {
                    Ok(step) => Ok(step),
                    Err(fault) => {
                        self.move_back(instr);
                        Err(fault)
                    }
                },
                Err(fault) => Err(fault),
            },
        }
    }

    // The `keep` is undone that has moved a reference.
    fn move_back(&mut self, instr: &Instr)
        requires { 0 < self.old.position }
        ensures { (before : Runs) → IsMovedBy instr.now before self.old → self.new ≡ before }
    {
        self.position -= 1;
        if let Instr::Keep { name, message } = instr {
            self.names.give_back(name, *message as usize);
        }
    }

    // At the end of the instructions the first message name that is still bound is dropped.
    fn end(&mut self) -> Step
        requires { self.old.owed ≡ None }
        ensures { (instrs : List Instrs) → drop self.old.position instrs ≡ [] → IsStep instrs self.old self.new result }
    {
        match self.names.take_message() {
            Some(target) => Step::Act(Act::Drop { target }),
            None => Step::End,
        }
    }

    // The instruction's next step; where it makes none any more, it is passed.
    fn run(&mut self, instr: &Instr) -> Result<Tried, NoMemory>
        requires none_owed { self.old.owed ≡ None }
        requires room { self.old.position + 1 < 2 ^ 64 }
        ensures ok { IfOk result (λ tried. Does instr.now tried self.old self.new) }
        ensures err { OnErr result (self.new ≡ self.old) }
    {
        match instr {
            Instr::Spawn { name, behaviour } => Ok(self.spawn(name, *behaviour)),
            Instr::Send { to, refs } => self.send(to, refs),
            Instr::Drop { name } => Ok(self.drop_name(name)),
            Instr::Keep { name, message } => self.keep(name, *message as usize),
            Instr::Work { steps } => {
                self.position += 1;
                Ok(Tried::Step(Step::Work(*steps)))
            }
            Instr::Retire => Ok(self.retire()),
        }
    }

    fn spawn(&mut self, name: &LocalName, behaviour: u32) -> Tried
        requires none_owed { self.old.owed ≡ None }
        requires room { self.old.position + 1 < 2 ^ 64 }
        ensures { Does (Spawns name.now behaviour) result self.old self.new }
    {
        match self.names.find_local(name) {
            Some(target) => {
                self.names.unbind_local(name);
                Tried::Step(Step::Act(Act::Drop { target }))
            }
            None => {
                self.owed = Some(*name);
                self.position += 1;
                Tried::Step(Step::Act(Act::Spawn { behaviour }))
            }
        }
    }

    fn send(&mut self, to: &Name, refs: &NameList) -> Result<Tried, NoMemory>
        requires none_owed { self.old.owed ≡ None }
        requires room { self.old.position + 1 < 2 ^ 64 }
        ensures ok { IfOk result (λ tried. Does (Sends to.now refs.now) tried self.old self.new) }
        ensures err { OnErr result (self.new ≡ self.old) }
    {
        match self.names.find_all(refs, self.alloc) {
            Ok(Some(refs)) => match self.names.find(to) {
                Some(to) => {
                    self.position += 1;
                    Ok(Tried::Step(Step::Act(Act::Send { to, refs })))
                }
                None => {
                    self.position += 1;
                    Ok(Tried::Passed)
                }
            },
            Ok(None) => {
                self.position += 1;
                Ok(Tried::Passed)
            }
            Err(fault) => Err(fault),
        }
    }

    fn drop_name(&mut self, name: &Name) -> Tried
        requires none_owed { self.old.owed ≡ None }
        requires room { self.old.position + 1 < 2 ^ 64 }
        ensures { Does (Drops name.now) result self.old self.new }
    {
        self.position += 1;
        match self.names.find(name) {
            Some(target) => {
                self.names.unbind(name);
                Tried::Step(Step::Act(Act::Drop { target }))
            }
            None => Tried::Passed,
        }
    }

    fn keep(&mut self, name: &LocalName, k: usize) -> Result<Tried, NoMemory>
        requires none_owed { self.old.owed ≡ None }
        requires room { self.old.position + 1 < 2 ^ 64 }
        ensures ok { IfOk result (λ tried. Does (Keeps name.now k) tried self.old self.new) }
        ensures err { OnErr result (self.new ≡ self.old) }
    {
        match (self.names.find_message(k), self.names.find_local(name)) {
            (None, _) => {
                self.position += 1;
                Ok(Tried::Passed)
            }
            (Some(_), Some(target)) => {
                self.names.unbind_local(name);
                Ok(Tried::Step(Step::Act(Act::Drop { target })))
            }
            (Some(actor), None) => {
                self.names.keep(*name, k, actor)?;
                self.position += 1;
                Ok(Tried::Moved)
            }
        }
    }

    fn retire(&mut self) -> Tried
        requires none_owed { self.old.owed ≡ None }
        requires room { self.old.position + 1 < 2 ^ 64 }
        ensures { Does Retires result self.old self.new }
    {
        self.position += 1;
        if self.root {
            self.root = false;
            Tried::Step(Step::Act(Act::Retire))
        } else {
            Tried::Passed
        }
    }
}
