//! Why the program writes a fault line in place of a report.
ghost use Rattle.std.specs.Prelude.{◌≡◌, IfOk};
ghost use Rattle.cluster_top.specs.FaultLines.{journal_line, limit_line};
ghost use Rattle.cluster_top.specs.Refusals.{IsRefusalOf, IsRefusalOfScript, line_for, status_of};

use crate::causes::cause_word;
use crate::script_lines::script_line;
use crate::status::Status;
use crgc_ids::{NoMemory, Octets, Which};
use journal_player::{Cause, PlayFault};
use script_reader::ScriptFault;
use std::alloc::Global;

/// Why the program writes a fault line in place of a report.
#[derive(Debug, Drop)]
pub enum Refusal {
    /// The words are no command.
    Usage,
    /// The script's first fault, and the line that tells it.
    Script {
        fault: ScriptFault,
        text: Octets,
    },
    /// A read failed.
    ReadFault,
    /// The input, the journal or the script's run passes this limit.
    Limit(Which),
    /// The journal's first faulty line, what is wrong with it, and the line that tells both.
    Journal {
        line: u64,
        cause: Cause,
        text: Octets,
    },
    /// The allocator gave no memory.
    NoMemory,
}

impl Refusal {
    /// That of a journal that is not played to its end, or `NoMemory` where its line needs more than there is.
    pub fn of(alloc: Global, fault: PlayFault) -> Refusal
        ensures { IsRefusalOf fault result }
    {
        match fault {
            PlayFault::Journal { line, cause } => match journal_line(alloc, line, cause) {
                Ok(text) => Refusal::Journal { line, cause, text },
                Err(NoMemory) => Refusal::NoMemory,
            },
            PlayFault::Limit(which) => Refusal::Limit(which),
            PlayFault::NoMemory => Refusal::NoMemory,
        }
    }

    /// That of a script with this first fault, or `NoMemory` where its line needs more than there is.
    pub fn of_script(alloc: Global, fault: ScriptFault) -> Refusal
        ensures { IsRefusalOfScript fault result }
    {
        match script_line(alloc, &fault) {
            Ok(text) => Refusal::Script { fault, text },
            Err(NoMemory) => Refusal::NoMemory,
        }
    }

    /// The status with which the program then ends.
    pub fn into_status(self) -> Status
        ensures { result ≡ status_of self }
    {
        match self {
            Refusal::Usage => Status::Usage,
            Refusal::Script { fault, .. } => Status::Script(fault),
            Refusal::ReadFault => Status::ReadFault,
            Refusal::Limit(which) => Status::Limit(which),
            Refusal::Journal { line, cause, .. } => Status::Journal { line, cause },
            Refusal::NoMemory => Status::NoMemory,
        }
    }

    /// The line that is written in place of a report.
    pub fn line(&self) -> &[u8]
        ensures { result.now ≡ line_for self.now }
    {
        match self {
            Refusal::Usage => b"fault 2 usage\n",
            Refusal::Script { text, .. } => text.as_slice(),
            Refusal::ReadFault => b"fault 4 read\n",
            Refusal::Limit(which) => limit_line(*which),
            Refusal::Journal { text, .. } => text.as_slice(),
            Refusal::NoMemory => b"fault 8 memory\n",
        }
    }
}

/// The line of a limit.
fn limit_line(which: Which) -> &'static [u8]
    ensures { result.now ≡ limit_line which }
{
    match which {
        Which::Input => b"fault 6 limit input\n",
        Which::Events => b"fault 6 limit events\n",
        Which::Actors => b"fault 6 limit actors\n",
        Which::Delta => b"fault 6 limit delta\n",
    }
}

/// The line of a fault of the journal.
fn journal_line(alloc: Global, line: u64, cause: Cause) -> Result<Octets, NoMemory>
    ensures { IfOk result (λ text. text ≡ journal_line line cause) }
{
    let word = cause_word(cause);
    match format!(in alloc; "fault 7 line {line} {word}\n") {
        Ok(text) => Ok(Octets::from_vec(text.into_bytes())),
        Err(_) => Err(NoMemory),
    }
}
