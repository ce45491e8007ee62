//! Why a round is not finished.
ghost use Rattle.std.specs.Prelude.{◌≡◌};

use crgc_ids::{NoMemory, Which};

/// Why a round is not finished. No rule ever refuses it.
#[derive(Clone, Copy, PartialEq, Eq, Debug)]
pub enum RoundHalt {
    /// The limit that its next event would pass.
    Limit(Which),
    /// The allocator gave no memory.
    NoMemory,
}

impl From<NoMemory> for RoundHalt {
    ghost use Rattle.cluster_round.specs.declared.halt.RoundHalt.TheVariants.{NoMemory as OutOfMemory};

    ghost from_gives = { λ _ h. h ≡ OutOfMemory };

    fn from(_: NoMemory) -> RoundHalt {
        RoundHalt::NoMemory
    }
}
