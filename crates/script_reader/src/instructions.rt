//! Reading instructions.
ghost use Rattle.std.specs.Prelude.{◌≡◌, ◌<◌, ◌≤◌, length, map, option_map};
ghost use Rattle.std.specs.List.{list_all};
ghost use Rattle.serde_json.specs.View.{view};
ghost use Rattle.script_reader.specs.Gives.{Gives};
ghost use Rattle.script_reader.specs.Instructions.{drop_of, instruction_in, instruction_of, instruction_with, instructions_at, is_text, keep_of, name_of, one, operand_name, retire_of, send_of, send_to, spawn_of, two, work_of};
ghost use Rattle.script_reader.specs.Walk.{each};

use crate::draft::{DraftInstr, DraftInstrs};
use crate::fault::{Flaw, Halt};
use crate::walk::{local_name, members_of, number_of, octets, optional_at};
use crate::words::Word;
use behaviour_lang::{Instr, Name, NameList, is_behaviour_name, message_number};
use serde_json::Value;
use std::alloc::Global;

/// The only operand.
fn one(operands: &[Value]) -> Option<&Value>
    ensures { option_map (λ v. view v.now) result ≡ one (map view operands.now) }
{
    let (first, rest) = operands.split_first()?;
    if rest.is_empty() { Some(first) } else { None }
}

/// The only two operands.
fn two(operands: &[Value]) -> Option<(&Value, &Value)>
    ensures { option_map (λ p. (view p.0.now, view p.1.now)) result ≡ two (map view operands.now) }
{
    let (first, rest) = operands.split_first()?;
    match one(rest) {
        Some(second) => Some((first, second)),
        None => None,
    }
}

/// `self`, a message name or a local name.
#[tactic(auto, unfolding(crate::specs::Instructions::name_of))]
fn name_of(key: Word, text: &str) -> Result<Name, Halt>
    ensures { Gives result (name_of key text.now) }
{
    if text == "self" {
        return Ok(Name::Own);
    }
    if let Some(k) = message_number(text.as_bytes()) {
        return Ok(Name::Message(k));
    }
    match local_name(text) {
        Some(name) => Ok(Name::Local(name)),
        None => Err(Halt::At(Flaw::Range(key))),
    }
}

fn operand_name(key: Word, operand: &Value) -> Result<Name, Halt>
    ensures { Gives result (operand_name key (view operand.now)) }
{
    match operand.as_str() {
        Some(text) => name_of(key, text),
        None => Err(Halt::At(Flaw::Kind(key))),
    }
}

#[tactic(auto, unfolding(crate::specs::Instructions::spawn_of))]
fn spawn(alloc: Global, key: Word, operands: &[Value]) -> Result<DraftInstr, Halt>
    ensures { Gives result (spawn_of key (map view operands.now)) }
{
    let Some((first, second)) = two(operands) else {
        return Err(Halt::At(Flaw::Kind(key)));
    };
    let Some(name) = first.as_str() else {
        return Err(Halt::At(Flaw::Kind(key)));
    };
    let Some(behaviour) = second.as_str() else {
        return Err(Halt::At(Flaw::Kind(key)));
    };
    let Some(name) = local_name(name) else {
        return Err(Halt::At(Flaw::Range(key)));
    };
    if !is_behaviour_name(behaviour.as_bytes()) {
        return Err(Halt::At(Flaw::Range(key)));
    }
    let behaviour = octets(alloc, behaviour)?;
    Ok(DraftInstr::Spawn { name, behaviour })
}

/// Whether the value is a text.
fn is_text(value: &Value) -> bool
    ensures { result ≡ is_text (view value.now) }
{
    value.as_str().is_some()
}

fn are_texts(values: &[Value]) -> bool
    ensures { result ≡ list_all (λ v. is_text (view v)) values.now }
{
    values.iter().all(|value| is_text(value))
}

/// Names, one for each operand.
fn names(alloc: Global, key: Word, operands: &[Value]) -> Result<NameList, Halt>
    ensures { Gives result (each (λ _. operand_name key) (map view operands.now)) }
{
    let mut names = NameList::new(alloc);
    for operand in operands {
        names.push(operand_name(key, operand)?)?;
    }
    Ok(names)
}

/// A send to the first name, with references by the others.
fn send_to(alloc: Global, key: Word, operands: &[Value]) -> Result<DraftInstr, Halt>
    ensures { Gives result (send_to key (map view operands.now)) }
{
    let Some((first, others)) = operands.split_first() else {
        return Err(Halt::At(Flaw::Kind(key)));
    };
    if others.len() > 16 {
        return Err(Halt::At(Flaw::Range(key)));
    }
    let to = operand_name(key, first)?;
    let refs = names(alloc, key, others)?;
    Ok(DraftInstr::Other(Instr::Send { to, refs }))
}

#[tactic(auto, unfolding(crate::specs::Instructions::send_of))]
fn send(alloc: Global, key: Word, operands: &[Value]) -> Result<DraftInstr, Halt>
    ensures { Gives result (send_of key (map view operands.now)) }
{
    if are_texts(operands) {
        send_to(alloc, key, operands)
    } else {
        Err(Halt::At(Flaw::Kind(key)))
    }
}

#[tactic(auto, unfolding(crate::specs::Instructions::drop_of))]
fn drop_name(key: Word, operands: &[Value]) -> Result<DraftInstr, Halt>
    ensures { Gives result (drop_of key (map view operands.now)) }
{
    let Some(operand) = one(operands) else {
        return Err(Halt::At(Flaw::Kind(key)));
    };
    let name = operand_name(key, operand)?;
    Ok(DraftInstr::Other(Instr::Drop { name }))
}

#[tactic(auto, unfolding(crate::specs::Instructions::keep_of))]
fn keep(key: Word, operands: &[Value]) -> Result<DraftInstr, Halt>
    ensures { Gives result (keep_of key (map view operands.now)) }
{
    let Some((first, second)) = two(operands) else {
        return Err(Halt::At(Flaw::Kind(key)));
    };
    let Some(name) = first.as_str() else {
        return Err(Halt::At(Flaw::Kind(key)));
    };
    let Some(text) = second.as_str() else {
        return Err(Halt::At(Flaw::Kind(key)));
    };
    let Some(name) = local_name(name) else {
        return Err(Halt::At(Flaw::Range(key)));
    };
    let Some(message) = message_number(text.as_bytes()) else {
        return Err(Halt::At(Flaw::Range(key)));
    };
    Ok(DraftInstr::Other(Instr::Keep { name, message }))
}

#[tactic(auto, unfolding(crate::specs::Instructions::work_of))]
fn work(key: Word, operands: &[Value]) -> Result<DraftInstr, Halt>
    ensures { Gives result (work_of key (map view operands.now)) }
{
    let Some(operand) = one(operands) else {
        return Err(Halt::At(Flaw::Kind(key)));
    };
    let Some(steps) = number_of(operand) else {
        return Err(Halt::At(Flaw::Kind(key)));
    };
    if steps > 10_000 {
        return Err(Halt::At(Flaw::Range(key)));
    }
    Ok(DraftInstr::Other(Instr::Work {
        steps: steps as u32,
    }))
}

fn retire(key: Word, operands: &[Value]) -> Result<DraftInstr, Halt>
    ensures { Gives result (retire_of key (map view operands.now)) }
{
    match operands.split_first() {
        None => Ok(DraftInstr::Other(Instr::Retire)),
        Some(_) => Err(Halt::At(Flaw::Kind(key))),
    }
}

/// An instruction by its first text.
#[tactic(auto, unfolding(crate::specs::Instructions::instruction_with))]
fn instruction_with(
    alloc: Global,
    key: Word,
    word: &str,
    operands: &[Value],
) -> Result<DraftInstr, Halt>
    ensures { Gives result (instruction_with key word.now (map view operands.now)) }
{
    if word == "spawn" {
        spawn(alloc, key, operands)
    } else if word == "send" {
        send(alloc, key, operands)
    } else if word == "drop" {
        drop_name(key, operands)
    } else if word == "keep" {
        keep(key, operands)
    } else if word == "work" {
        work(key, operands)
    } else if word == "retire" {
        retire(key, operands)
    } else {
        Err(Halt::At(Flaw::Kind(key)))
    }
}

/// An instruction by the members of its array.
fn instruction_in(alloc: Global, key: Word, members: &[Value]) -> Result<DraftInstr, Halt>
    ensures { Gives result (instruction_in key (map view members.now)) }
{
    let Some((first, operands)) = members.split_first() else {
        return Err(Halt::At(Flaw::Kind(key)));
    };
    match first.as_str() {
        Some(word) => instruction_with(alloc, key, word, operands),
        None => Err(Halt::At(Flaw::Kind(key))),
    }
}

fn instruction(alloc: Global, key: Word, value: &Value) -> Result<DraftInstr, Halt>
    ensures { Gives result (instruction_of key (view value.now)) }
{
    match members_of(value) {
        Some(members) => instruction_in(alloc, key, members),
        None => Err(Halt::At(Flaw::Kind(key))),
    }
}

/// One instruction for each value.
fn instructions(alloc: Global, key: Word, values: &[Value]) -> Result<DraftInstrs, Halt>
    ensures { Gives result (each (λ _. instruction_of key) (map view values.now)) }
{
    let mut instrs = DraftInstrs::new(alloc);
    for value in values {
        instrs.push(instruction(alloc, key, value)?)?;
    }
    Ok(instrs)
}

/// The instructions at a key of a behaviour, at most 64.
pub fn instructions_at(alloc: Global, value: &Value, key: Word) -> Result<DraftInstrs, Halt>
    ensures { Gives result (instructions_at key (view value.now)) }
{
    let values = optional_at(value, key, 64)?;
    instructions(alloc, key, values)
}
