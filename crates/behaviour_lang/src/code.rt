//! Behaviours, and all of them together.
use crate::instr::InstrList;
use crgc_ids::{ItemList, Octets};
use std::marker::Model;

/// What an actor does when it is woken, and when it takes a message.
#[derive(Debug, Drop)]
pub struct Behaviour {
    pub name: Octets,
    pub wake: InstrList,
    pub message: InstrList,
}

/// Behaviours in the order of their numbers, from 0.
pub type BehaviourList = ItemList<Behaviour>;

/// The behaviours of a script. Contracts see the list of them.
#[derive(Debug, Drop)]
pub struct Code {
    pub behaviours: BehaviourList,
}

impl Model for Code {
    ghost use Rattle.std.specs.Prelude.{List};
    ghost use Rattle.behaviour_lang.specs.declared.code.Behaviour.{Behaviour};

    ghost Value = { List Behaviour };

    ghost view = { λ c. c.behaviours };
}
