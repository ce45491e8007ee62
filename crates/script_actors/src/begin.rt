//! The actors at the beginning of a script.
ghost use Rattle.std.specs.Prelude.{ℕ, ◌≡◌, ◌<◌, ◌≤◌, [], length, IfOk, IsSome, List, OnOk, Some, None};
ghost use Rattle.crgc_ids.specs.Actor.{Actor};
ghost use Rattle.behaviour_lang.specs.Bound.{bound, local_names};
ghost use Rattle.behaviour_lang.specs.declared.instr.Name.TheVariants.{Local};
ghost use Rattle.script_reader.specs.Valid.{IsScript};
ghost use Rattle.run_model.specs.Doing.{beginning, own_name, seed_actors};
ghost use Rattle.script_actors.specs.Begun.{Binds, IsBegun};
ghost use Rattle.script_actors.specs.Table.{AddsRow, names_at, next_on, row, rows_on};
ghost use Rattle.script_actors.specs.Standing.{AreActorsAt};
ghost use Rattle.crgc_ids.specs.declared.limits.TheConstants.{MOST_ACTORS};

use crate::actors::ScriptActors;
use crate::rows::{NodeRows, Row};
use behaviour_lang::LocalName;
use crgc_ids::{ActorId, ActorList, NoMemory, NodeId};
use script_reader::Script;
use std::alloc::Global;

impl ScriptActors {
    /// The actors of the script's seeds, each with its own name and those of its ties. Time in proportion to the seeds, and
    /// for each tie logarithmic in the names of its actor, each name above being moved by one place.
    pub fn begin(alloc: Global, script: &Script) -> Result<ScriptActors, NoMemory>
        requires { IsScript script.now }
        ensures { IfOk result (λ t. AreActorsAt script.now (beginning script.now) t) }
    {
        let mut actors = ScriptActors::without_actors(alloc, script.nodes)?;
        let seeds = actors.add_seeds(script)?;
        actors.add_ties(script, seeds.as_slice())?;
        Ok(actors)
    }

    // Nodes on which nobody was born.
    pub(crate) fn without_actors(alloc: Global, nodes: u8) -> Result<ScriptActors, NoMemory>
        ensures { IfOk result (λ t. (length t ≡ nodes) × ((n : ℕ) → rows_on t n ≡ [])) }
    {
        let mut rows = Vec::new(alloc);
        for _ in 0u8..nodes {
            if rows.push(NodeRows::new(alloc)).is_err() {
                return Err(NoMemory);
            }
        }
        Ok(ScriptActors { alloc, nodes: rows })
    }

    // The seeds are born, in order.
    fn add_seeds(&mut self, script: &Script) -> Result<ActorList, NoMemory>
        requires script { IsScript script.now }
        requires nodes { length self.old ≡ script.now.nodes }
        requires empty { (n : ℕ) → rows_on self.old n ≡ [] }
        ensures actors { IfOk result (λ l. l ≡ seed_actors script.now) }
        ensures seeds { OnOk result (IsBegun script.now script.now.seeds [] self.new) }
        ensures nodes { OnOk result (length self.new ≡ script.now.nodes) }
    {
        let mut actors = ActorList::new(self.alloc);
        for seed in script.seeds.as_slice() {
            let actor = self.add_seed(seed.node, seed.behaviour)?;
            actors.push(actor)?;
        }
        Ok(actors)
    }

    // The next actor of the node is born.
    pub(crate) fn add_seed(&mut self, node: NodeId, behaviour: u32) -> Result<ActorId, NoMemory>
        requires node { node < length self.old }
        requires room { length (rows_on self.old node) < MOST_ACTORS }
        ensures actor { IfOk result (λ a. a ≡ next_on self.old node) }
        ensures ok { OnOk result ((names : List (List ℕ × Actor)) × (local_names names ≡ own_name (next_on self.old node))
            × AddsRow self.old self.new (next_on self.old node) (row behaviour (Some names))) }
    {
        let actor = self.next_actor(node);
        self.born(actor, behaviour)?;
        Ok(actor)
    }

    // The actor that is born next on the node.
    pub(crate) fn next_actor(&self, node: NodeId) -> ActorId
        requires node { node < length self.now }
        requires room { length (rows_on self.now node) < MOST_ACTORS }
        ensures { result ≡ next_on self.now node }
    {
        let serial = self.nodes[node.get() as usize].len();
        ActorId::new(node, serial as u32).unwrap()
    }

    // The ties bind their names, in order.
    fn add_ties(&mut self, script: &Script, seeds: &[ActorId]) -> Result<(), NoMemory>
        requires script { IsScript script.now }
        requires actors { seeds.now ≡ seed_actors script.now }
        requires seeded { IsBegun script.now script.now.seeds [] self.old }
        ensures tied { OnOk result (IsBegun script.now script.now.seeds script.now.ties self.new) }
        ensures nodes { OnOk result (length self.new ≡ length self.old) }
    {
        for tie in script.ties.as_slice() {
            self.bind(seeds[tie.from as usize], tie.name, seeds[tie.to as usize])?;
        }
        Ok(())
    }

    // The actor binds the name, which is not bound in it.
    fn bind(&mut self, actor: ActorId, name: LocalName, target: ActorId) -> Result<(), NoMemory>
        requires here { IsSome (names_at self.old actor) }
        requires free { (names : List (List ℕ × Actor)) → names_at self.old actor ≡ Some names
            → bound (Local name) (local_names names) ≡ None }
        ensures { OnOk result (Binds self.old self.new actor name target) }
    {
        let behaviour = self.behaviour(actor);
        let mut names = self.take_names(actor, behaviour);
        names.bind(name, target)?;
        let _out = self.replace(
            actor,
            Row {
                behaviour,
                names: Some(names),
            },
        );
        Ok(())
    }
}
