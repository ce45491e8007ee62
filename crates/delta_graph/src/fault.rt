//! Why entries have no Delta.
ghost use Rattle.std.specs.Prelude.{◌≡◌};

use crgc_ids::NoMemory;

/// Why entries have no Delta.
#[derive(Clone, Copy, PartialEq, Eq, Debug)]
pub enum DeltaFault {
    /// They name more than 200,000 different actors.
    TableFull,
    /// The allocator gave no memory.
    NoMemory,
}

impl From<NoMemory> for DeltaFault {
    ghost use Rattle.delta_graph.specs.declared.fault.DeltaFault.TheVariants as faults;

    ghost from_gives = { λ _ f. f ≡ faults.NoMemory };

    fn from(_: NoMemory) -> DeltaFault {
        DeltaFault::NoMemory
    }
}
