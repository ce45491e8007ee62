//! Texts to scripts.
ghost use Rattle.std.specs.Prelude.{◌≡◌, IfOk};
ghost use Rattle.serde_json.specs.View.{view};
ghost use Rattle.script_reader.specs.Drafts.{IsSound};
ghost use Rattle.script_reader.specs.Gives.{Gives, Tells};
ghost use Rattle.script_reader.specs.Scripts.{Answers, numbered, script_of, told};
ghost use Rattle.script_reader.specs.Valid.{IsScript};
ghost use Rattle.script_reader.specs.Words.{spelled};

use crate::draft::Draft;
use crate::fault::{Flaw, Halt, ScriptFault, ScriptRead};
use crate::names::numbering;
use crate::numbers::{numbered_behaviours, numbered_seeds};
use crate::rows::draft;
use crate::script::Script;
use crate::walk::octets;
use crate::words::Word;
use behaviour_lang::Code;
use crgc_ids::Octets;
use fault_plan::Plan;
use serde_json::Value;
use std::alloc::{AllocError, Global};

/// The script that the text stands for, or its first fault. `NoMemory` may come for want of memory alone. Time in
/// proportion to n log n for n bytes, and to their number where few rows have to differ.
pub fn read_script(alloc: Global, bytes: &[u8]) -> Result<Script, ScriptRead>
    ensures answers { Answers bytes.now result }
    ensures keeps { IfOk result (λ s. IsScript s) }
{
    let value = match Value::from_slice(alloc, bytes) {
        Ok(value) => value,
        Err(e) if e.is_memory() => return Err(ScriptRead::NoMemory),
        Err(_) => return Err(ScriptRead::Fault(ScriptFault::Json)),
    };
    match script(alloc, &value) {
        Ok(script) => Ok(script),
        Err(halt) => Err(told(alloc, halt)),
    }
}

/// The script that the tree stands for.
#[tactic(auto, unfolding(crate::specs::Scripts::script_of))]
fn script(alloc: Global, value: &Value) -> Result<Script, Halt>
    ensures gives { Gives result (script_of (view value.now)) }
    ensures keeps { IfOk result (λ s. IsScript s) }
{
    let draft = draft(alloc, value)?;
    numbered(alloc, draft)
}

/// The script of a draft.
fn numbered(alloc: Global, draft: Draft) -> Result<Script, Halt>
    requires { IsSound draft }
    ensures { Gives result (numbered draft) }
{
    let Draft {
        nodes,
        behaviours,
        seeds,
        ties,
        losses,
        repeats,
        crashes,
        turns,
    } = draft;
    let numbers = numbering(alloc, &behaviours)?;
    let behaviours = numbered_behaviours(alloc, &numbers, behaviours)?;
    let seeds = numbered_seeds(alloc, &numbers, seeds)?;
    Ok(Script {
        nodes,
        code: Code { behaviours },
        seeds,
        ties,
        plan: Plan::new(losses, repeats, crashes),
        turns,
    })
}

/// A fault with the bytes of its word.
fn told(alloc: Global, halt: Halt) -> ScriptRead
    ensures { Tells halt result }
{
    match halt {
        Halt::NoMemory => ScriptRead::NoMemory,
        Halt::At(flaw) => match fault(alloc, flaw) {
            Ok(fault) => ScriptRead::Fault(fault),
            Err(_) => ScriptRead::NoMemory,
        },
    }
}

fn fault(alloc: Global, flaw: Flaw) -> Result<ScriptFault, AllocError>
    ensures { IfOk result (λ f. f ≡ told flaw) }
{
    Ok(match flaw {
        Flaw::Key(word) => ScriptFault::Key(spelling(alloc, word)?),
        Flaw::Missing(word) => ScriptFault::Missing(spelling(alloc, word)?),
        Flaw::Kind(word) => ScriptFault::Kind(spelling(alloc, word)?),
        Flaw::Range(word) => ScriptFault::Range(spelling(alloc, word)?),
        Flaw::Unknown(name) => ScriptFault::UnknownBehaviour(name),
    })
}

fn spelling(alloc: Global, word: Word) -> Result<Octets, AllocError>
    ensures { IfOk result (λ o. o ≡ spelled word) }
{
    octets(alloc, word.text())
}
