//! Why a text is no script.
ghost use Rattle.std.specs.Prelude.{◌≡◌};
ghost use Rattle.script_reader.specs.declared.fault.Halt.TheVariants as halts;

use crate::words::Word;
use crgc_ids::{NoMemory, Octets};
use std::alloc::{AllocError, AllocFailed};

/// The first fault of a text. The bytes are those of the name of the object, of the key or of the behaviour.
#[derive(Debug, Drop)]
pub enum ScriptFault {
    /// The text is no JSON.
    Json,
    /// The object has a key that its table lacks.
    Key(Octets),
    /// The key has to be there, and is not.
    Missing(Octets),
    /// The JSON kind of the key or object is wrong.
    Kind(Octets),
    /// The range of the key, or the length of its array, is wrong.
    Range(Octets),
    /// No behaviour has this name.
    UnknownBehaviour(Octets),
}

/// Why no script is answered: the first fault of the text, or want of memory.
#[derive(Debug, Drop)]
pub enum ScriptRead {
    Fault(ScriptFault),
    NoMemory,
}

/// The first fault of a JSON tree.
#[derive(Debug, Drop)]
pub enum Flaw {
    Key(Word),
    Missing(Word),
    Kind(Word),
    Range(Word),
    Unknown(Octets),
}

/// Why no value is read: the first fault of the tree, or want of memory.
#[derive(Debug, Drop)]
pub enum Halt {
    At(Flaw),
    NoMemory,
}

impl From<NoMemory> for Halt {
    ghost from_gives = { λ _ e. e ≡ halts.NoMemory };

    fn from(_e: NoMemory) -> Halt {
        Halt::NoMemory
    }
}

impl From<AllocError> for Halt {
    ghost from_gives = { λ _ e. e ≡ halts.NoMemory };

    fn from(_e: AllocError) -> Halt {
        Halt::NoMemory
    }
}

impl<T: Drop> From<AllocFailed<T>> for Halt {
    ghost from_gives = { λ _ e. e ≡ halts.NoMemory };

    fn from(_e: AllocFailed<T>) -> Halt {
        Halt::NoMemory
    }
}
