//! Scripts: a whole run is refused, and made again.
use crate::trial::Trial;
use script_player::{RunFault, run};
use script_reader::{ScriptRead, read_script};
use std::alloc::Global;
use std::{io, str};

/// Runs the script by the fixed schedule: whether its report is the one behind it, which begins at the line `crgc`.
pub fn is_run(trial: &mut Trial, text: &str) -> io::Result<bool> {
    let Some((script, wanted)) = text.split_once("\ncrgc ") else {
        return Err(io::ErrorKind::InvalidData.into());
    };
    let found = report_of(trial, script)?;
    let Ok(report) = str::from_utf8(found.as_slice()) else {
        return Ok(false);
    };
    let report = report.strip_prefix("crgc ").unwrap_or("");
    Ok(report.strip_suffix('\n') == Some(wanted))
}

/// The report of the script's run.
fn report_of(trial: &mut Trial, script: &str) -> io::Result<Vec<u8>> {
    if let Some(report) = read_and_run(trial.alloc, script)? {
        return Ok(report);
    }
    trial.make_anew();
    match read_and_run(trial.alloc, script)? {
        Some(report) => Ok(report),
        None => Err(io::ErrorKind::OutOfMemory.into()),
    }
}

/// The report of the script's run; None where memory is refused.
fn read_and_run(alloc: Global, script: &str) -> io::Result<Option<Vec<u8>>> {
    let script = match read_script(alloc, script.as_bytes()) {
        Ok(script) => script,
        Err(ScriptRead::NoMemory) => return Ok(None),
        Err(_) => return Err(io::ErrorKind::InvalidData.into()),
    };
    match run(alloc, script, false) {
        Ok(ran) => Ok(Some(ran.report)),
        Err(RunFault::NoMemory) => Ok(None),
        Err(_) => Err(io::ErrorKind::InvalidData.into()),
    }
}
