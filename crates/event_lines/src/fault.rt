//! Why no line is read.
ghost use Rattle.std.specs.Prelude.{◌≡◌};
ghost use Rattle.event_lines.specs.declared.fault.LineRead.TheVariants.{Fault, NoMemory as OutOfMemory};

use crgc_ids::NoMemory;
use journal_model::LineFault;

/// Why no line is read: its first fault, or want of memory.
#[derive(Clone, Copy, PartialEq, Eq, Debug)]
pub enum LineRead {
    Fault(LineFault),
    NoMemory,
}

impl From<LineFault> for LineRead {
    ghost from_gives = { λ fault read. read ≡ Fault fault };

    fn from(fault: LineFault) -> LineRead {
        LineRead::Fault(fault)
    }
}

impl From<NoMemory> for LineRead {
    ghost from_gives = { λ _ read. read ≡ OutOfMemory };

    fn from(_: NoMemory) -> LineRead {
        LineRead::NoMemory
    }
}
