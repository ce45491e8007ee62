//! Why an event does not happen.
ghost use Rattle.std.specs.Prelude.{◌≡◌};

use crgc_ids::{NoMemory, Which};
use history_model::Rule;

/// Why an event does not happen.
#[derive(Clone, Copy, PartialEq, Eq, Debug)]
pub enum Halt {
    /// The first rule that it breaks.
    Rule(Rule),
    /// The limit that it would pass, where it breaks no rule.
    Limit(Which),
    /// The allocator gave no memory.
    NoMemory,
}

impl From<NoMemory> for Halt {
    ghost use Rattle.cluster_course.specs.declared.halt.Halt.TheVariants.{NoMemory as OutOfMemory};

    ghost from_gives = { λ _ h. h ≡ OutOfMemory };

    fn from(_: NoMemory) -> Halt {
        Halt::NoMemory
    }
}
