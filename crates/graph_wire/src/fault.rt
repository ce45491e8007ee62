//! Why bytes could not be read.
ghost use Rattle.std.specs.Prelude.{◌≡◌};
ghost use Rattle.graph_wire.specs.declared.fault.ReadFault.TheVariants as faults;

use crgc_ids::NoMemory;
use std::alloc::AllocFailed;
use wire_grammar::{WireFault, WireKind};

/// Why no bulletin is answered: the first fault of the bytes, or want of memory.
#[derive(Clone, Copy, PartialEq, Eq, Debug)]
pub enum ReadFault {
    /// The bytes begin with no spelling: their first fault.
    Wire(WireFault),
    /// Memory ran out.
    NoMemory,
}

pub fn fault(kind: WireKind, offset: usize) -> ReadFault
    ensures { result ≡ ReadFault.Wire (record { kind = kind; offset = offset }) }
{
    ReadFault::Wire(WireFault { kind, offset })
}

impl From<NoMemory> for ReadFault {
    ghost from_gives = { λ _ e. e ≡ faults.NoMemory };

    fn from(_e: NoMemory) -> ReadFault {
        ReadFault::NoMemory
    }
}

impl<T: Drop> From<AllocFailed<T>> for ReadFault {
    ghost from_gives = { λ _ e. e ≡ faults.NoMemory };

    fn from(_e: AllocFailed<T>) -> ReadFault {
        ReadFault::NoMemory
    }
}
