//! How a call of the program ends.
ghost use Rattle.std.specs.Prelude.{◌≡◌};
ghost use Rattle.cluster_top.specs.Outcome.{exit_number_of};

use crgc_ids::Which;
use journal_player::Cause;
use script_reader::ScriptFault;

/// How a call of the program ends.
#[derive(Debug, Drop)]
pub enum Status {
    /// The report was written. Exit 0.
    Done,
    /// The words are no command. Exit 2.
    Usage,
    /// The script's first fault. Exit 3.
    Script(ScriptFault),
    /// A read failed. Exit 4.
    ReadFault,
    /// A write failed, after so many bytes. Exit 5.
    WriteFault { written: u64 },
    /// The input passes this limit, the journal does and no line before is at fault, or the script's run does. Exit 6.
    Limit(Which),
    /// The journal's first faulty line, counted from 1, and what is wrong with it. Exit 7.
    Journal { line: u64, cause: Cause },
    /// The allocator gave no memory. Exit 8.
    NoMemory,
}

impl Status {
    /// The number with which the program ends.
    pub fn exit_number(&self) -> u8
        ensures { result ≡ exit_number_of self.now }
    {
        match self {
            Status::Done => 0,
            Status::Usage => 2,
            Status::Script(_) => 3,
            Status::ReadFault => 4,
            Status::WriteFault { .. } => 5,
            Status::Limit(_) => 6,
            Status::Journal { .. } => 7,
            Status::NoMemory => 8,
        }
    }
}
