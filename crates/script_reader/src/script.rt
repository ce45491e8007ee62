//! Scripts.
use behaviour_lang::{Code, LocalName};
use crgc_ids::{ItemList, NodeId};
use fault_plan::Plan;
use std::marker::Model;

/// A seed: its node, the number of its behaviour, and how often it is woken.
#[derive(Clone, Copy, PartialEq, Eq, Debug)]
pub struct Seed {
    pub node: NodeId,
    pub behaviour: u32,
    pub wakes: u32,
}

/// Seeds in the order of their numbers, from 0.
pub type SeedList = ItemList<Seed>;

/// The seed with the number `from` holds the seed with the number `to`, under a local name.
#[derive(Debug, Drop)]
pub struct Tie {
    pub from: u32,
    pub to: u32,
    pub name: LocalName,
}

/// Ties in order.
pub type TieList = ItemList<Tie>;

/// What a cluster is to run. Contracts see the record of its parts; the code is the list of its behaviours.
#[derive(Drop)]
pub struct Script {
    pub nodes: u8,
    pub code: Code,
    pub seeds: SeedList,
    pub ties: TieList,
    pub plan: Plan,
    pub turns: u32,
}

impl Model for Script {
    ghost use Rattle.script_reader.specs.Valid.{Scripted};

    ghost Value = { Scripted };

    ghost view = { λ s. record { nodes = s.nodes; code = s.code; seeds = s.seeds; ties = s.ties; plan = s.plan; turns = s.turns } };
}
