//! Reading the objects of a script.
ghost use Rattle.std.specs.Prelude.{◌≡◌, ◌<◌, ◌≤◌, ◌==◌, IfOk, length, map};
ghost use Rattle.std.specs.List.{list_any};
ghost use Rattle.serde_json.specs.View.{view};
ghost use Rattle.script_reader.specs.Gives.{Gives};
ghost use Rattle.script_reader.specs.Rows.{behaviour_of, behaviours_at, crash_of, crashes_at, draft_of, ends_at, link_of, links_at, new_link_of, seed_of, seeds_at, tie_of, tie_row, ties_at};
ghost use Rattle.script_reader.specs.Walk.{each, number_at};

use crate::draft::{Draft, DraftBehaviour, DraftBehaviours, DraftSeed, DraftSeeds};
use crate::fault::{Flaw, Halt};
use crate::instructions::instructions_at;
use crate::script::{Tie, TieList};
use crate::ties::Ties;
use crate::walk::{array_at, behaviour_name_at, local_name_at, number_at, object_at, optional_at};
use crate::words::Word;
use crgc_ids::NodeId;
use fault_plan::{CrashRow, CrashRows, LinkRow, LinkRows};
use serde_json::Value;
use std::alloc::Global;

#[tactic(auto, unfolding(crate::specs::Rows::behaviour_of))]
fn behaviour(alloc: Global, value: &Value) -> Result<DraftBehaviour, Halt>
    ensures { Gives result (behaviour_of (view value.now)) }
{
    object_at(
        value,
        Word::Behaviour,
        &[Word::Name, Word::Wake, Word::Message],
    )?;
    let name = behaviour_name_at(alloc, value, Word::Name)?;
    let wake = instructions_at(alloc, value, Word::Wake)?;
    let message = instructions_at(alloc, value, Word::Message)?;
    Ok(DraftBehaviour {
        name,
        wake,
        message,
    })
}

/// The node at a key, one of so many.
fn node_at(value: &Value, key: Word, nodes: u8) -> Result<NodeId, Halt>
    requires { nodes ≤ 16 }
    ensures { Gives result (number_at key 0 nodes (view value.now)) }
{
    let number = number_at(value, key, 0, u64::from(nodes))?;
    match NodeId::new(number as u8) {
        Some(node) => Ok(node),
        None => Err(Halt::At(Flaw::Range(key))),
    }
}

/// The number at a key, from `low` on and below `limit`.
fn small_number_at(value: &Value, key: Word, low: u32, limit: u32) -> Result<u32, Halt>
    ensures { Gives result (number_at key low limit (view value.now)) }
{
    let number = number_at(value, key, u64::from(low), u64::from(limit))?;
    Ok(number as u32)
}

#[tactic(auto, unfolding(crate::specs::Rows::seed_of))]
fn seed(alloc: Global, value: &Value, nodes: u8) -> Result<DraftSeed, Halt>
    requires { nodes ≤ 16 }
    ensures { Gives result (seed_of nodes (view value.now)) }
{
    object_at(
        value,
        Word::Seed,
        &[Word::Node, Word::Behaviour, Word::Wakes],
    )?;
    let node = node_at(value, Word::Node, nodes)?;
    let behaviour = behaviour_name_at(alloc, value, Word::Behaviour)?;
    let wakes = small_number_at(value, Word::Wakes, 0, 1_000_001)?;
    Ok(DraftSeed {
        node,
        behaviour,
        wakes,
    })
}

/// The two ends of a tie, by the numbers of their seeds.
fn seeds_of_tie(value: &Value, seeds: u32) -> Result<(u32, u32), Halt>
    ensures { Gives result (ends_at seeds (view value.now)) }
{
    let from = small_number_at(value, Word::From, 0, seeds)?;
    let to = small_number_at(value, Word::To, 0, seeds)?;
    if to == from {
        return Err(Halt::At(Flaw::Range(Word::To)));
    }
    Ok((from, to))
}

#[tactic(auto, unfolding(crate::specs::Rows::tie_row))]
fn tie(value: &Value, seeds: u32) -> Result<Tie, Halt>
    ensures { Gives result (tie_row seeds (view value.now)) }
{
    object_at(value, Word::Tie, &[Word::From, Word::To, Word::As])?;
    let (from, to) = seeds_of_tie(value, seeds)?;
    let name = local_name_at(value, Word::As)?;
    Ok(Tie { from, to, name })
}

/// The two ends of a link.
fn nodes_of_link(value: &Value, nodes: u8) -> Result<(NodeId, NodeId), Halt>
    requires { nodes ≤ 16 }
    ensures { Gives result (ends_at nodes (view value.now)) }
{
    let from = node_at(value, Word::From, nodes)?;
    let to = node_at(value, Word::To, nodes)?;
    if to == from {
        return Err(Halt::At(Flaw::Range(Word::To)));
    }
    Ok((from, to))
}

/// A loss or a repeat, by the name of the object.
#[tactic(auto, unfolding(crate::specs::Rows::link_of))]
fn link(value: &Value, name: Word, nodes: u8) -> Result<LinkRow, Halt>
    requires { nodes ≤ 16 }
    ensures { Gives result (link_of name nodes (view value.now)) }
{
    object_at(value, name, &[Word::From, Word::To, Word::Number])?;
    let (from, to) = nodes_of_link(value, nodes)?;
    let number = small_number_at(value, Word::Number, 0, 1_000_000)?;
    Ok(LinkRow { from, to, number })
}

/// A loss or a repeat that is not one of the rows before it.
fn new_link(value: &Value, name: Word, nodes: u8, before: &LinkRows) -> Result<LinkRow, Halt>
    requires { nodes ≤ 16 }
    ensures { Gives result (new_link_of name nodes before.now (view value.now)) }
{
    let row = link(value, name, nodes)?;
    if before.contains(&row) {
        return Err(Halt::At(Flaw::Range(Word::Number)));
    }
    Ok(row)
}

/// Whether a row names the node.
fn has_crash(rows: &CrashRows, node: NodeId) -> bool
    ensures { result ≡ list_any (λ r. node == r.node) rows.now }
{
    rows.iter().any(|row| node == row.node)
}

/// A crash of a node that none of the rows before it names.
#[tactic(auto, unfolding(crate::specs::Rows::crash_of))]
fn crash(value: &Value, nodes: u8, before: &CrashRows) -> Result<CrashRow, Halt>
    requires { nodes ≤ 16 }
    ensures { Gives result (crash_of nodes before.now (view value.now)) }
{
    object_at(value, Word::Crash, &[Word::Node, Word::After])?;
    let node = node_at(value, Word::Node, nodes)?;
    if has_crash(before, node) {
        return Err(Halt::At(Flaw::Range(Word::Node)));
    }
    let after = small_number_at(value, Word::After, 1, 1_000_001)?;
    Ok(CrashRow { node, after })
}

fn behaviours(alloc: Global, values: &[Value]) -> Result<DraftBehaviours, Halt>
    ensures { Gives result (each (λ _. behaviour_of) (map view values.now)) }
{
    let mut rows = DraftBehaviours::new(alloc);
    for value in values {
        rows.push(behaviour(alloc, value)?)?;
    }
    Ok(rows)
}

fn seeds(alloc: Global, values: &[Value], nodes: u8) -> Result<DraftSeeds, Halt>
    requires { nodes ≤ 16 }
    ensures gives { Gives result (each (λ _. seed_of nodes) (map view values.now)) }
    ensures len { IfOk result (λ rows. length rows ≡ length values.now) }
{
    let mut rows = DraftSeeds::new(alloc);
    for value in values {
        rows.push(seed(alloc, value, nodes)?)?;
    }
    Ok(rows)
}

fn ties(alloc: Global, values: &[Value], seeds: u32) -> Result<TieList, Halt>
    ensures { Gives result (each (tie_of seeds) (map view values.now)) }
{
    let mut rows = Ties::new(alloc);
    for value in values {
        let tie = tie(value, seeds)?;
        if !rows.add(tie)? {
            return Err(Halt::At(Flaw::Range(Word::As)));
        }
    }
    Ok(rows.into_list())
}

fn links(alloc: Global, values: &[Value], name: Word, nodes: u8) -> Result<LinkRows, Halt>
    requires { nodes ≤ 16 }
    ensures { Gives result (each (new_link_of name nodes) (map view values.now)) }
{
    let mut rows = LinkRows::new(alloc);
    for value in values {
        rows.push(new_link(value, name, nodes, &rows)?)?;
    }
    Ok(rows)
}

fn crashes(alloc: Global, values: &[Value], nodes: u8) -> Result<CrashRows, Halt>
    requires { nodes ≤ 16 }
    ensures { Gives result (each (crash_of nodes) (map view values.now)) }
{
    let mut rows = CrashRows::new(alloc);
    for value in values {
        rows.push(crash(value, nodes, &rows)?)?;
    }
    Ok(rows)
}

fn behaviours_at(alloc: Global, value: &Value) -> Result<DraftBehaviours, Halt>
    ensures { Gives result (behaviours_at (view value.now)) }
{
    behaviours(alloc, array_at(value, Word::Behaviours, 256)?)
}

fn seeds_at(alloc: Global, value: &Value, nodes: u8) -> Result<DraftSeeds, Halt>
    requires { nodes ≤ 16 }
    ensures gives { Gives result (seeds_at nodes (view value.now)) }
    ensures few { IfOk result (λ rows. length rows ≤ 4096) }
{
    seeds(alloc, array_at(value, Word::Seeds, 4096)?, nodes)
}

fn ties_at(alloc: Global, value: &Value, seeds: &DraftSeeds) -> Result<TieList, Halt>
    requires { length seeds.now ≤ 4096 }
    ensures { Gives result (ties_at (length seeds.now) (view value.now)) }
{
    let values = optional_at(value, Word::Ties, 4096)?;
    ties(alloc, values, seeds.len() as u32)
}

fn links_at(
    alloc: Global,
    value: &Value,
    key: Word,
    name: Word,
    nodes: u8,
) -> Result<LinkRows, Halt>
    requires { nodes ≤ 16 }
    ensures { Gives result (links_at key name nodes (view value.now)) }
{
    links(alloc, optional_at(value, key, 4096)?, name, nodes)
}

fn crashes_at(alloc: Global, value: &Value, nodes: u8) -> Result<CrashRows, Halt>
    requires { nodes ≤ 16 }
    ensures { Gives result (crashes_at nodes (view value.now)) }
{
    crashes(alloc, optional_at(value, Word::Crashes, 16)?, nodes)
}

/// A whole script.
#[tactic(auto, unfolding(crate::specs::Rows::draft_of))]
pub fn draft(alloc: Global, value: &Value) -> Result<Draft, Halt>
    ensures { Gives result (draft_of (view value.now)) }
{
    object_at(value, Word::Script, &TABLE)?;
    let nodes = number_at(value, Word::Nodes, 1, 17)? as u8;
    let behaviours = behaviours_at(alloc, value)?;
    let seeds = seeds_at(alloc, value, nodes)?;
    let ties = ties_at(alloc, value, &seeds)?;
    let losses = links_at(alloc, value, Word::Losses, Word::Loss, nodes)?;
    let repeats = links_at(alloc, value, Word::Repeats, Word::Repeat, nodes)?;
    let crashes = crashes_at(alloc, value, nodes)?;
    let turns = small_number_at(value, Word::Turns, 1, 1_000_001)?;
    Ok(Draft {
        nodes,
        behaviours,
        seeds,
        ties,
        losses,
        repeats,
        crashes,
        turns,
    })
}

/// The keys of a script.
const TABLE: [Word; 8] = [
    Word::Nodes,
    Word::Behaviours,
    Word::Seeds,
    Word::Ties,
    Word::Losses,
    Word::Repeats,
    Word::Crashes,
    Word::Turns,
];
