//! Instructions, and the names that they use.
use crate::local_name::LocalName;
use crgc_ids::ItemList;

/// A name of a reference: the actor itself, `m0` to `m15` of the message that is taken, or a local one.
#[derive(Clone, Copy, Debug)]
pub enum Name {
    Own,
    Message(u8),
    Local(LocalName),
}

/// Names in the order in which they were put in.
pub type NameList = ItemList<Name>;

/// One instruction. A behaviour is named by its number.
#[derive(Debug, Drop)]
pub enum Instr {
    Spawn { name: LocalName, behaviour: u32 },
    Send { to: Name, refs: NameList },
    Drop { name: Name },
    Keep { name: LocalName, message: u8 },
    Work { steps: u32 },
    Retire,
}

/// Instructions in the order in which they run.
pub type InstrList = ItemList<Instr>;
