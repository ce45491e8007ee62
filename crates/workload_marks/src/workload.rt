//! The report of a generated workload.
ghost use Rattle.std.specs.Prelude.{◌≡◌, ◌≤◌, false, IfOk};
ghost use Rattle.script_player.specs.Reported.{ReportsFixed};
ghost use Rattle.script_reader.specs.Valid.{IsScript};
ghost use Rattle.workload_gen.specs.Scripts.{workload_script};

use crate::memory::made;
use script_player::{RunFault, run};
use script_reader::laws::script_is_read;
use script_reader::{Script, ScriptRead, read_script};
use std::alloc::Global;
use std::io;
use workload_gen::generate;

/// The full report of the script of this number and size, run by the fixed schedule. An error comes of want of memory, or of a
/// limit that the run would pass.
pub fn report_of(alloc: Global, seed: u64, size: u32) -> io::Result<Vec<u8>>
    requires some { 1 ≤ size }
    requires in_range { size ≤ 10000 }
    ensures { IfOk result (λ report. ReportsFixed (workload_script seed size) false report.items) }
{
    let script = script_of(alloc, seed, size)?;
    match run(alloc, script, false) {
        Ok(ran) => Ok(ran.report),
        Err(RunFault::NoMemory) => Err(io::ErrorKind::OutOfMemory.into()),
        Err(RunFault::Limit(_)) => Err(io::ErrorKind::InvalidData.into()),
    }
}

/// The script of this number and size, as its text is read.
fn script_of(alloc: Global, seed: u64, size: u32) -> io::Result<Script>
    requires some { 1 ≤ size }
    requires in_range { size ≤ 10000 }
    ensures script { IfOk result (λ script. script ≡ workload_script seed size) }
    ensures keeps { IfOk result (λ script. IsScript script) }
{
    let text = made(generate(alloc, seed, size))?;
    script_is_read();
    match read_script(alloc, text.as_slice()) {
        Ok(script) => Ok(script),
        Err(ScriptRead::NoMemory) => Err(io::ErrorKind::OutOfMemory.into()),
        Err(ScriptRead::Fault(_)) => Err(io::ErrorKind::InvalidData.into()),
    }
}
