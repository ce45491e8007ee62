//! Reads a script from each line of the input, and prints its first fault, or that it is one.
#![tactic(auto)]

use crgc_ids::Octets;
use script_reader::{ScriptFault, ScriptRead, read_script};
use std::alloc::Global;
use std::io::{self, BufRead, BufReader};

fn main(rt: HostRuntime) -> io::Result<()> {
    for line in BufReader::new(rt.alloc(), rt.reader())?.lines(rt.alloc()) {
        let line = line?;
        match first_fault(rt.alloc(), line.as_bytes()) {
            None => println!(rt; "a script")?,
            Some(ScriptRead::NoMemory) => println!(rt; "no memory")?,
            Some(ScriptRead::Fault(fault)) => tell(&rt, &fault)?,
        }
    }
    Ok(())
}

/// Why the text is no script; None where it is one.
fn first_fault(alloc: Global, text: &[u8]) -> Option<ScriptRead> {
    match read_script(alloc, text) {
        Ok(_) => None,
        Err(fault) => Some(fault),
    }
}

fn tell(rt: &impl Print, fault: &ScriptFault) -> io::Result<()> {
    match fault {
        ScriptFault::Json => rt.println("json"),
        ScriptFault::Key(name) => tell_name(rt, "key", name),
        ScriptFault::Missing(name) => tell_name(rt, "missing", name),
        ScriptFault::Kind(name) => tell_name(rt, "kind", name),
        ScriptFault::Range(name) => tell_name(rt, "range", name),
        ScriptFault::UnknownBehaviour(name) => tell_name(rt, "unknown-behaviour", name),
    }
}

fn tell_name(rt: &impl Print, word: &str, name: &Octets) -> io::Result<()> {
    match std::str::from_utf8(name.as_slice()) {
        Ok(name) => println!(rt; "{word} {name}"),
        Err(_) => println!(rt; "{word}"),
    }
}
