//! Copies of behaviours.
ghost use Rattle.std.specs.Prelude.{◌≡◌, IfOk};

use crate::code::{Behaviour, BehaviourList, Code};
use crate::instr::{Instr, InstrList};
use crgc_ids::NoMemory;
use std::alloc::Global;

impl Code {
    /// Equal code. Linear time.
    pub fn copy(&self, alloc: Global) -> Result<Code, NoMemory>
        ensures { IfOk result (λ c. c ≡ self.now) }
    {
        let mut behaviours = BehaviourList::new(alloc);
        for row in self.behaviours.as_slice() {
            behaviours.push(copied_behaviour(alloc, row)?)?;
        }
        Ok(Code { behaviours })
    }
}

fn copied_behaviour(alloc: Global, behaviour: &Behaviour) -> Result<Behaviour, NoMemory>
    ensures { IfOk result (λ b. b ≡ behaviour.now) }
{
    let name = behaviour.name.copy()?;
    let wake = copied_instrs(alloc, &behaviour.wake)?;
    let message = copied_instrs(alloc, &behaviour.message)?;
    Ok(Behaviour {
        name,
        wake,
        message,
    })
}

fn copied_instrs(alloc: Global, instrs: &InstrList) -> Result<InstrList, NoMemory>
    ensures { IfOk result (λ l. l ≡ instrs.now) }
{
    let mut copied = InstrList::new(alloc);
    for row in instrs.as_slice() {
        copied.push(copied_instr(row)?)?;
    }
    Ok(copied)
}

fn copied_instr(instr: &Instr) -> Result<Instr, NoMemory>
    ensures { IfOk result (λ i. i ≡ instr.now) }
{
    match instr {
        Instr::Spawn { name, behaviour } => Ok(Instr::Spawn {
            name: *name,
            behaviour: *behaviour,
        }),
        Instr::Send { to, refs } => Ok(Instr::Send {
            to: *to,
            refs: refs.copy()?,
        }),
        Instr::Drop { name } => Ok(Instr::Drop { name: *name }),
        Instr::Keep { name, message } => Ok(Instr::Keep {
            name: *name,
            message: *message,
        }),
        Instr::Work { steps } => Ok(Instr::Work { steps: *steps }),
        Instr::Retire => Ok(Instr::Retire),
    }
}
