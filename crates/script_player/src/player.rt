//! A script run from its seeds to its report.
ghost use Rattle.std.specs.Prelude.{◌≡◌, IfErr, IfOk};
ghost use Rattle.script_reader.specs.Valid.{IsScript};
ghost use Rattle.script_player.specs.Reported.{IsRunFault, ReportsFixed};

use crate::driver::Driver;
use crate::fault::RunFault;
use script_reader::Script;
use std::alloc::Global;

/// A report, and the cluster of its history, of which nothing more is asked. Who gives the cluster back does so allocation by
/// allocation, in time in proportion to its actors and bulletins; a program that ends with the report may forget it.
#[derive(Drop)]
pub struct Ran {
    pub report: Vec<u8>,
    pub cluster: Driver,
}

/// The report, in brief or in full, of the one history that the fixed schedule makes of the script; or the first limit that this
/// history would pass. Logarithmic time for each event, and for each batch of carries and each turn 240 looks at links, beyond what
/// the rounds and the report take.
pub fn run(alloc: Global, script: Script, brief: bool) -> Result<Ran, RunFault>
    requires { IsScript script }
    ensures report { IfOk result (λ ran. ReportsFixed script brief ran.report.items) }
    ensures fault { IfErr result (IsRunFault script) }
{
    let mut cluster = Driver::begin(alloc, script, brief)?;
    cluster.go_on()?;
    let report = cluster.close(brief)?;
    Ok(Ran { report, cluster })
}
