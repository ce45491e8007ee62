//! The line that tells a script's first fault.
ghost use Rattle.std.specs.Prelude.{◌≡◌, ◌++◌, codes, IfOk};
ghost use Rattle.journal_model.specs.Lines.{line_of};
ghost use Rattle.cluster_top.specs.FaultLines.{script_line};

use crgc_ids::{NoMemory, Octets};
use script_reader::ScriptFault;
use std::alloc::{AllocError, Global};

/// The line that tells the fault.
pub fn script_line(alloc: Global, fault: &ScriptFault) -> Result<Octets, NoMemory>
    ensures { IfOk result (λ text. text ≡ script_line fault.now) }
{
    let text = match fault {
        ScriptFault::Json => line(alloc, b"fault 3 json", b""),
        ScriptFault::Key(object) => line(alloc, b"fault 3 key ", object.as_slice()),
        ScriptFault::Missing(key) => line(alloc, b"fault 3 missing ", key.as_slice()),
        ScriptFault::Kind(name) => line(alloc, b"fault 3 kind ", name.as_slice()),
        ScriptFault::Range(key) => line(alloc, b"fault 3 range ", key.as_slice()),
        ScriptFault::UnknownBehaviour(name) => line(
            alloc,
            b"fault 3 unknown-behaviour ",
            name.as_slice(),
        ),
    };
    match text {
        Ok(text) => Ok(Octets::from_vec(text)),
        Err(_) => Err(NoMemory),
    }
}

/// The line of these two pieces.
fn line(alloc: Global, words: &[u8], name: &[u8]) -> Result<Vec<u8>, AllocError>
    ensures { IfOk result (λ v. v.items ≡ line_of (words.now ++ name.now)) }
{
    let mut line = words.to_vec(alloc)?;
    line.extend_from_slice(name)?;
    line.extend_from_slice(b"\n")?;
    Ok(line)
}
