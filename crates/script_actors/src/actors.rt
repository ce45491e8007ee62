//! The table of a script's actors.
ghost use Rattle.std.specs.Prelude.{ℕ, ◌≡◌, ◌<◌, ◌≤◌, ◌∷◌, [], false, true, length, IfOk, IsSome, List, OnErr, OnOk, Some, None};
ghost use Rattle.history_model.specs.declared.events.Event.{Event};
ghost use Rattle.history_model.specs.declared.events.Event.TheVariants.{Rest, Spawn, Take, Wake};
ghost use Rattle.history_model.specs.Cluster.{newborn};
ghost use Rattle.history_model.specs.Messages.{waiting};
ghost use Rattle.history_model.specs.State.{is_busy, is_root};
ghost use Rattle.behaviour_lang.specs.Bound.{local_names, names_at_start};
ghost use Rattle.behaviour_lang.specs.Steps.{due_act};
ghost use Rattle.behaviour_lang.specs.TurnState.{at_start};
ghost use Rattle.behaviour_lang.specs.declared.act.Act.TheVariants as acts;
ghost use Rattle.behaviour_lang.specs.declared.act.List.TheVariants as lists;
ghost use Rattle.script_reader.specs.Valid.{Scripted};
ghost use Rattle.run_model.specs.Doing.{first_refs, own_name};
ghost use Rattle.crgc_ids.specs.Actor.{Actor};
ghost use Rattle.script_actors.specs.Table.{AddsRow, IsHere, SetsRow, Table, behaviour_at, names_at, next_on, row, row_at};
ghost use Rattle.script_actors.specs.declared.rows.Row.{Row};
ghost use Rattle.script_actors.specs.Standing.{AreActorsAt, names_now};
ghost use Rattle.script_actors.specs.Turns.{IsTurnOf, left_now};

use crate::rows::{NodeRows, Row};
use behaviour_lang::{Code, LocalName, Locals, Turn};
use crgc_ids::{ActorId, NoMemory, RefList};
use std::alloc::Global;
use std::marker::Model;

/// The actors of a script, each with the number of its behaviour and the names that it keeps between its turns. It keeps its
/// allocator. Contracts see the rows of each node's actors, by their serials.
#[derive(Drop)]
pub struct ScriptActors {
    pub(crate) alloc: Global,
    pub(crate) nodes: Vec<NodeRows>,
}

impl Model for ScriptActors {
    ghost use Rattle.script_actors.specs.Table.{Table};

    ghost Value = { Table };

    ghost view = { λ t. t.nodes.items };
}

impl ScriptActors {
    /// An actor that is not in a turn begins one, by its list for a wake or for a message with these references, at most 16:
    /// its names are in the turn from now on, also after `NoMemory`. Constant time.
    pub fn start(
        &mut self,
        code: &Code,
        actor: ActorId,
        list: behaviour_lang::List,
        refs: RefList,
        root: bool,
    ) -> Result<Turn, NoMemory>
        requires here { IsSome (names_at self.old actor) }
        requires in_code { behaviour_at self.old actor < length code.now }
        requires refs { length refs ≤ 16 }
        ensures out { SetsRow self.old self.new actor (row (behaviour_at self.old actor) None) }
        ensures turn { IfOk result (λ t. (names : List (List ℕ × Actor)) → names_at self.old actor ≡ Some names
            → t ≡ at_start (behaviour_at self.old actor) list (names_at_start refs names) root) }
        ensures woken { (s : Scripted) (h : List Event) → AreActorsAt s h self.old → AreActorsAt s (Wake actor ∷ h) self.new }
        ensures taken { (s : Scripted) (h : List Event) → AreActorsAt s h self.old → AreActorsAt s (Take actor ∷ h) self.new }
        ensures wake { IfOk result (λ t. (s : Scripted) (h : List Event) → AreActorsAt s h self.old
            → list ≡ lists.Wake → refs ≡ [] → root ≡ is_root actor h → IsTurnOf s actor (Wake actor ∷ h) t) }
        ensures take { IfOk result (λ t. (s : Scripted) (h : List Event) → AreActorsAt s h self.old
            → list ≡ lists.Message → refs ≡ first_refs (waiting actor h) → root ≡ is_root actor h
            → IsTurnOf s actor (Take actor ∷ h) t) }
    {
        let behaviour = self.behaviour(actor);
        let names = self.take_names(actor, behaviour);
        Turn::begin(self.alloc, code, behaviour, list, names, refs, root)
    }

    /// The next actor of a node is born, with this behaviour, and holds itself. After `NoMemory` all is as before. Amortized
    /// constant time.
    pub fn born(&mut self, child: ActorId, behaviour: u32) -> Result<(), NoMemory>
        requires node { child.node < length self.old }
        requires next { child ≡ next_on self.old child.node }
        ensures ok { OnOk result ((names : List (List ℕ × Actor)) × (local_names names ≡ own_name child)
            × AddsRow self.old self.new child (row behaviour (Some names))) }
        ensures born { OnOk result ((s : Scripted) (h : List Event) (parent : Actor) → AreActorsAt s h self.old → parent.node ≡ child.node
            → is_busy parent h ≡ true → due_act (left_now s parent h) ≡ Some (acts.Spawn behaviour) → behaviour < length s.code
            → AreActorsAt s (Spawn parent ∷ h) self.new) }
        ensures err { OnErr result (self.new ≡ self.old) }
    {
        let names = own_names(self.alloc, child)?;
        self.add(
            child,
            Row {
                behaviour,
                names: Some(names),
            },
        )
    }

    /// The names of an actor that is not in a turn: they are with its turn from now on. Constant time.
    pub fn give_names(&mut self, actor: ActorId) -> Locals
        requires { IsSome (names_at self.old actor) }
        ensures names { names_at self.old actor ≡ Some result }
        ensures out { SetsRow self.old self.new actor (row (behaviour_at self.old actor) None) }
        ensures woken { (s : Scripted) (h : List Event) → AreActorsAt s h self.old → AreActorsAt s (Wake actor ∷ h) self.new }
        ensures taken { (s : Scripted) (h : List Event) → AreActorsAt s h self.old → AreActorsAt s (Take actor ∷ h) self.new }
    {
        let behaviour = self.behaviour(actor);
        self.take_names(actor, behaviour)
    }

    /// The actor that was born last on its node is taken back: all is as before its birth. Constant time.
    pub fn take_back(&mut self, actor: ActorId)
        requires { IsHere self.old actor }
        ensures { (before : Table) (row : Row) → actor ≡ next_on before actor.node → AddsRow before self.old actor row
            → self.new ≡ before }
    {
        self.nodes[actor.node().get() as usize].take_last();
    }

    /// The names of a turn that ended come back to its actor. Constant time.
    pub fn rest(&mut self, actor: ActorId, names: Locals)
        requires { IsHere self.old actor }
        ensures back { SetsRow self.old self.new actor (row (behaviour_at self.old actor) (Some names)) }
        ensures rested { (s : Scripted) (h : List Event) → AreActorsAt s h self.old
            → local_names names ≡ names_now s actor (Rest actor ∷ h) → AreActorsAt s (Rest actor ∷ h) self.new }
    {
        let behaviour = self.behaviour(actor);
        let _out = self.replace(
            actor,
            Row {
                behaviour,
                names: Some(names),
            },
        );
    }

    /// The number of the actor's behaviour; 0 where there is no such actor. Constant time.
    pub fn behaviour(&self, actor: ActorId) -> u32
        ensures { result ≡ behaviour_at self.now actor }
    {
        match self.nodes.get(actor.node().get() as usize) {
            Some(rows) => rows.behaviour(actor.serial() as usize),
            None => 0,
        }
    }

    // The names of an actor that has that behaviour are taken out.
    pub(crate) fn take_names(&mut self, actor: ActorId, behaviour: u32) -> Locals
        requires { IsSome (names_at self.old actor) }
        ensures names { names_at self.old actor ≡ Some result }
        ensures out { SetsRow self.old self.new actor (row behaviour None) }
    {
        let old = self.replace(
            actor,
            Row {
                behaviour,
                names: None,
            },
        );
        old.names.unwrap()
    }

    // The next actor of a node gets this row.
    pub(crate) fn add(&mut self, child: ActorId, new: Row) -> Result<(), NoMemory>
        requires node { child.node < length self.old }
        requires next { child ≡ next_on self.old child.node }
        ensures ok { OnOk result (AddsRow self.old self.new child new) }
        ensures err { OnErr result (self.new ≡ self.old) }
    {
        self.nodes[child.node().get() as usize].push(new)
    }

    // The row is put in the place of the actor's row, which is the answer.
    pub(crate) fn replace(&mut self, actor: ActorId, new: Row) -> Row
        requires { IsHere self.old actor }
        ensures value { row_at self.old actor ≡ Some result }
        ensures after { SetsRow self.old self.new actor new }
    {
        self.nodes[actor.node().get() as usize].replace(actor.serial() as usize, new)
    }
}

/// The name `self`, bound to the actor itself.
pub(crate) fn own_names(alloc: Global, actor: ActorId) -> Result<Locals, NoMemory>
    ensures { IfOk result (λ names. local_names names ≡ own_name actor) }
{
    let mut names = Locals::new(alloc);
    names.bind(LocalName::own(), actor)?;
    Ok(names)
}
