//! Why a script is not run to its end.
ghost use Rattle.std.specs.Prelude.{◌≡◌};

use crgc_ids::{NoMemory, Which};

/// Why the fixed schedule of a script is not run to its end.
#[derive(Clone, Copy, PartialEq, Eq, Debug)]
pub enum RunFault {
    /// It passes this limit.
    Limit(Which),
    /// The allocator gave no memory.
    NoMemory,
}

impl From<NoMemory> for RunFault {
    ghost use Rattle.script_player.specs.declared.fault.RunFault.TheVariants.{NoMemory as OutOfMemory};

    ghost from_gives = { λ _ f. f ≡ OutOfMemory };

    fn from(_: NoMemory) -> RunFault {
        RunFault::NoMemory
    }
}
