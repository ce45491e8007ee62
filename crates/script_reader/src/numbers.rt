//! Behaviours by their numbers in place of their names.
ghost use Rattle.std.specs.Prelude.{◌≡◌};
ghost use Rattle.script_reader.specs.Found.{finds};
ghost use Rattle.script_reader.specs.Gives.{Gives};
ghost use Rattle.script_reader.specs.Numbered.{numbered_behaviour, numbered_instr, numbered_instrs, numbered_seed};
ghost use Rattle.script_reader.specs.Walk.{each};

use crate::draft::{
    DraftBehaviour, DraftBehaviours, DraftInstr, DraftInstrs, DraftSeed, DraftSeeds,
};
use crate::fault::Halt;
use crate::names::{Numbering, known};
use crate::script::{Seed, SeedList};
use behaviour_lang::{Behaviour, BehaviourList, Instr, InstrList};
use std::alloc::Global;

fn instr(numbers: &Numbering, instr: DraftInstr) -> Result<Instr, Halt>
    ensures { Gives result (numbered_instr (finds numbers.now) instr) }
{
    match instr {
        DraftInstr::Spawn { name, behaviour } => {
            let behaviour = known(numbers, behaviour)?;
            Ok(Instr::Spawn { name, behaviour })
        }
        DraftInstr::Other(instr) => Ok(instr),
    }
}

fn instrs(alloc: Global, numbers: &Numbering, drafts: DraftInstrs) -> Result<InstrList, Halt>
    ensures { Gives result (numbered_instrs (finds numbers.now) drafts) }
{
    let mut instrs = InstrList::new(alloc);
    for draft in drafts.into_vec() {
        instrs.push(instr(numbers, draft)?)?;
    }
    Ok(instrs)
}

fn behaviour(alloc: Global, numbers: &Numbering, draft: DraftBehaviour) -> Result<Behaviour, Halt>
    ensures { Gives result (numbered_behaviour (finds numbers.now) draft) }
{
    let DraftBehaviour {
        name,
        wake,
        message,
    } = draft;
    let wake = instrs(alloc, numbers, wake)?;
    let message = instrs(alloc, numbers, message)?;
    Ok(Behaviour {
        name,
        wake,
        message,
    })
}

/// The behaviours, in order.
pub fn numbered_behaviours(
    alloc: Global,
    numbers: &Numbering,
    drafts: DraftBehaviours,
) -> Result<BehaviourList, Halt>
    ensures { Gives result (each (λ _. numbered_behaviour (finds numbers.now)) drafts) }
{
    let mut behaviours = BehaviourList::new(alloc);
    for draft in drafts.into_vec() {
        behaviours.push(behaviour(alloc, numbers, draft)?)?;
    }
    Ok(behaviours)
}

fn seed(numbers: &Numbering, draft: DraftSeed) -> Result<Seed, Halt>
    ensures { Gives result (numbered_seed (finds numbers.now) draft) }
{
    let DraftSeed {
        node,
        behaviour,
        wakes,
    } = draft;
    let behaviour = known(numbers, behaviour)?;
    Ok(Seed {
        node,
        behaviour,
        wakes,
    })
}

/// The seeds, in order.
pub fn numbered_seeds(
    alloc: Global,
    numbers: &Numbering,
    drafts: DraftSeeds,
) -> Result<SeedList, Halt>
    ensures { Gives result (each (λ _. numbered_seed (finds numbers.now)) drafts) }
{
    let mut seeds = SeedList::new(alloc);
    for draft in drafts.into_vec() {
        seeds.push(seed(numbers, draft)?)?;
    }
    Ok(seeds)
}
