//! The names that are bound in a turn.
ghost use Rattle.std.specs.Prelude.{◌≡◌, ◌^◌, ◌<◌, ◌≤◌, ◌↔◌, [], true, false, length, slice_index_or, slice_set, List, ◌∷◌, OnOk, OnErr, Option, None, IfOk, OnSome, IfNone, slice_get};
ghost use Rattle.behaviour_lang.specs.Bound.{bind, bound, first_message, local_names, names_at_start, past_first_message, without};
ghost use Rattle.behaviour_lang.specs.Held.{IsKept, WasFree, first_flag, names_of};
ghost use Rattle.behaviour_lang.specs.Turn.{bound_all};
ghost use Rattle.behaviour_lang.specs.declared.bound.BoundNames.{BoundNames as Held};
ghost use Rattle.crgc_ids.specs.Actor.{Actor};
ghost use Rattle.behaviour_lang.specs.declared.instr.Name.TheVariants.{Local, Message};

use crate::instr::{Name, NameList};
use crate::local_name::LocalName;
use crate::locals::Locals;
use crgc_ids::{ActorId, NoMemory, RefList};
use std::alloc::Global;

/// The references of the message, which of them are still bound, and the local names.
#[derive(Debug, Drop)]
pub(crate) struct BoundNames {
    pub(crate) refs: RefList,
    pub(crate) flags: [bool; 16],
    pub(crate) locals: Locals,
}

impl BoundNames {
    /// The names with which a turn begins.
    pub(crate) fn begin(locals: Locals, refs: RefList) -> BoundNames
        requires { length refs ≤ 16 }
        ensures { names_of result ≡ names_at_start refs locals }
    {
        BoundNames {
            refs,
            flags: [true; 16],
            locals,
        }
    }

    /// The actor to which the name is bound. Logarithmic time in the number of names.
    pub(crate) fn find(&self, name: &Name) -> Option<ActorId>
        ensures { result ≡ bound name.now (names_of self.now) }
    {
        match name {
            Name::Own => self.find_local(&LocalName::own()),
            Name::Message(k) => self.find_message(*k as usize),
            Name::Local(name) => self.find_local(name),
        }
    }

    pub(crate) fn find_local(&self, name: &LocalName) -> Option<ActorId>
        ensures { result ≡ bound (Local name.now) (names_of self.now) }
    {
        self.locals.find(name)
    }

    pub(crate) fn find_message(&self, k: usize) -> Option<ActorId>
        ensures { result ≡ bound (Message k) (names_of self.now) }
    {
        if self.has_flag(k) {
            self.refs.get(k).copied()
        } else {
            None
        }
    }

    fn has_flag(&self, k: usize) -> bool
        ensures { result ≡ slice_index_or self.now.flags k false }
    {
        k < self.flags.len() && self.flags[k]
    }

    /// The name is not bound any more. Logarithmic time in the number of names, and each name above is moved by one place.
    pub(crate) fn unbind(&mut self, name: &Name)
        ensures { names_of self.new ≡ without name.now (names_of self.old) }
    {
        match name {
            Name::Own => self.unbind_local(&LocalName::own()),
            Name::Message(k) => self.unbind_message(*k as usize),
            Name::Local(name) => self.unbind_local(name),
        }
    }

    pub(crate) fn unbind_local(&mut self, name: &LocalName)
        ensures { names_of self.new ≡ without (Local name.now) (names_of self.old) }
    {
        self.locals.unbind(name);
    }

    pub(crate) fn unbind_message(&mut self, k: usize)
        ensures { names_of self.new ≡ without (Message k) (names_of self.old) }
    {
        set_flag(&mut self.flags, k, false);
    }

    /// The local name, which was not bound, is bound to the actor; after `NoMemory` all is as before.
    pub(crate) fn bind(&mut self, name: LocalName, actor: ActorId) -> Result<(), NoMemory>
        requires { bound (Local name) (names_of self.old) ≡ None }
        ensures ok { OnOk result (names_of self.new ≡ bind name actor (names_of self.old)) }
        ensures err { OnErr result (self.new ≡ self.old) }
    {
        self.locals.bind(name, actor)
    }

    /// The local name, which was not bound, is bound to the actor of the message name, which is not bound any more; after
    /// `NoMemory` all is as before.
    pub(crate) fn keep(&mut self, name: LocalName, k: usize, actor: ActorId) -> Result<(), NoMemory>
        requires { bound (Local name) (names_of self.old) ≡ None }
        ensures ok { OnOk result (names_of self.new ≡ bind name actor (without (Message k) (names_of self.old))) }
        ensures kept { OnOk result (IsKept name k actor self.old self.new) }
        ensures err { OnErr result (self.new ≡ self.old) }
    {
        match self.locals.bind(name, actor) {
            Ok(()) => {
                set_flag(&mut self.flags, k, false);
                Ok(())
            }
            Err(fault) => Err(fault),
        }
    }

    /// What `keep` did is undone.
    pub(crate) fn give_back(&mut self, name: &LocalName, k: usize)
        ensures { (before : Held) (a : Actor) → IsKept name.now k a before self.old → WasFree name.now k before → self.new ≡ before }
    {
        self.locals.unbind(name);
        set_flag(&mut self.flags, k, true);
    }

    /// The actors to which the names are bound; None where one of them is not bound. Each name is found in logarithmic
    /// time.
    pub(crate) fn find_all(
        &self,
        names: &NameList,
        alloc: Global,
    ) -> Result<Option<RefList>, NoMemory>
        ensures { IfOk result (λ found. found ≡ bound_all names.now (names_of self.now)) }
    {
        let mut refs = RefList::new(alloc);
        for name in names.as_slice() {
            match self.find(name) {
                Some(actor) => refs.push(actor)?,
                None => return Ok(None),
            }
        }
        Ok(Some(refs))
    }

    /// The first message name that is still bound is not bound any more, and its actor is the answer. Constant time.
    pub(crate) fn take_message(&mut self) -> Option<ActorId>
        ensures value { result ≡ first_message (names_of self.old) }
        ensures rest { names_of self.new ≡ past_first_message (names_of self.old) }
    {
        let k = first_flag(self.refs.as_slice(), &self.flags)?;
        let actor = self.find_message(k);
        self.unbind_message(k);
        actor
    }
}

/// The number of the first reference whose flag is set.
fn first_flag(refs: &[ActorId], flags: &[bool]) -> Option<usize>
    ensures { result ≡ first_flag 0 refs.now flags.now }
{
    for k in 0..flags.len() {
        if flags[k] && k < refs.len() {
            return Some(k);
        }
    }
    None
}

/// The flag is set so, where there is one.
#[tactic(auto, using(std::proofs::lemmas::List::set_past))]
fn set_flag(flags: &mut [bool], k: usize, flag: bool)
    ensures { flags.new ≡ slice_set flags.old k flag }
{
    if k < flags.len() {
        flags[k] = flag;
    }
}
