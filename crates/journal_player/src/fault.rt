//! Why a journal is not played to its end.
ghost use Rattle.std.specs.Prelude.{◌≡◌};
ghost use Rattle.journal_player.specs.Faults.{cause_of, fault_at, halt_of};

use crgc_ids::{NoMemory, Which};
use event_lines::LineRead;
use history_model::Rule;
use journal_model::LineFault;

/// What is wrong with a line of a journal.
#[derive(Clone, Copy, PartialEq, Eq, Debug)]
pub enum Cause {
    /// `header`: the first line is no header.
    Header,
    /// `word`: no form has its first word.
    Word,
    /// `field`: a field that its form needs is missing, or a word in place of a field is not spelled so.
    Field,
    /// `extra`: words follow after all that its form takes.
    Extra,
    /// `differs`: it is a cut or a stop and not the line that is due, or an end whose counts are others.
    Differs,
    /// `after-end`: it comes after an end line.
    AfterEnd,
    /// The word of the rule that its event breaks.
    Rule(Rule),
}

/// Why a journal is not played to its end.
#[derive(Clone, Copy, PartialEq, Eq, Debug)]
pub enum PlayFault {
    /// Its first faulty line, counted from 1, and what is wrong with it.
    Journal { line: u64, cause: Cause },
    /// It passes this limit.
    Limit(Which),
    /// The allocator gave no memory.
    NoMemory,
}

impl From<NoMemory> for PlayFault {
    ghost use Rattle.journal_player.specs.declared.fault.PlayFault.TheVariants.{NoMemory as OutOfMemory};

    ghost from_gives = { λ _ f. f ≡ OutOfMemory };

    fn from(_: NoMemory) -> PlayFault {
        PlayFault::NoMemory
    }
}

/// Why a line is not followed.
#[derive(Clone, Copy, PartialEq, Eq, Debug)]
pub enum Halt {
    Cause(Cause),
    Limit(Which),
    NoMemory,
}

impl Halt {
    /// The fault, where this is the line.
    pub fn at(self, line: u64) -> PlayFault
        ensures { result ≡ fault_at line self }
    {
        match self {
            Halt::Cause(cause) => PlayFault::Journal { line, cause },
            Halt::Limit(which) => PlayFault::Limit(which),
            Halt::NoMemory => PlayFault::NoMemory,
        }
    }
}

impl From<NoMemory> for Halt {
    ghost use Rattle.journal_player.specs.declared.fault.Halt.TheVariants.{NoMemory as OutOfMemory};

    ghost from_gives = { λ _ h. h ≡ OutOfMemory };

    fn from(_: NoMemory) -> Halt {
        Halt::NoMemory
    }
}

impl From<cluster_course::Halt> for Halt {
    ghost from_gives = { λ halt h. h ≡ halt_of halt };

    fn from(halt: cluster_course::Halt) -> Halt {
        match halt {
            cluster_course::Halt::Rule(rule) => Halt::Cause(Cause::Rule(rule)),
            cluster_course::Halt::Limit(which) => Halt::Limit(which),
            cluster_course::Halt::NoMemory => Halt::NoMemory,
        }
    }
}

impl From<LineFault> for Cause {
    ghost from_gives = { λ fault cause. cause ≡ cause_of fault };

    fn from(fault: LineFault) -> Cause {
        match fault {
            LineFault::Word => Cause::Word,
            LineFault::Field => Cause::Field,
            LineFault::Extra => Cause::Extra,
        }
    }
}
