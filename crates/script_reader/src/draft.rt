//! A script whose behaviours are still named by their names.
use crate::script::TieList;
use behaviour_lang::{Instr, LocalName};
use crgc_ids::{ItemList, NodeId, Octets};
use fault_plan::{CrashRows, LinkRows};

/// An instruction: a spawn that names its behaviour, or any other.
#[derive(Debug, Drop)]
pub enum DraftInstr {
    Spawn { name: LocalName, behaviour: Octets },
    Other(Instr),
}

/// Instructions in the order in which they run.
pub type DraftInstrs = ItemList<DraftInstr>;

/// A behaviour of such instructions.
#[derive(Debug, Drop)]
pub struct DraftBehaviour {
    pub name: Octets,
    pub wake: DraftInstrs,
    pub message: DraftInstrs,
}

/// Such behaviours in order.
pub type DraftBehaviours = ItemList<DraftBehaviour>;

/// A seed that names its behaviour.
#[derive(Debug, Drop)]
pub struct DraftSeed {
    pub node: NodeId,
    pub behaviour: Octets,
    pub wakes: u32,
}

/// Such seeds in order.
pub type DraftSeeds = ItemList<DraftSeed>;

/// A whole script.
#[derive(Drop)]
pub struct Draft {
    pub nodes: u8,
    pub behaviours: DraftBehaviours,
    pub seeds: DraftSeeds,
    pub ties: TieList,
    pub losses: LinkRows,
    pub repeats: LinkRows,
    pub crashes: CrashRows,
    pub turns: u32,
}
