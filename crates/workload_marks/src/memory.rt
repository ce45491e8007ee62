//! Want of memory, as an error of input and output.
ghost use Rattle.std.specs.Prelude.{◌≡◌};
ghost use Rattle.std.specs.Result.{result_ok};

use crgc_ids::NoMemory;
use std::io;

/// What was made, if there was memory.
pub fn made<T>(outcome: Result<T, NoMemory>) -> io::Result<T>
    ensures { result_ok result ≡ result_ok outcome }
{
    match outcome {
        Ok(value) => Ok(value),
        Err(NoMemory) => Err(io::ErrorKind::OutOfMemory.into()),
    }
}
