//! The commands of the program.

/// A command of the program, with what its options say.
#[derive(Clone, Copy, PartialEq, Eq, Debug)]
pub enum Command {
    /// `play`: the report of a journal. Optional: `--brief`.
    Play { brief: bool },
    /// `run`: the report of a script's run. Required: `--workers`; optional: `--brief`.
    Run { workers: u32, brief: bool },
    /// `gen`: a script from a number. Required: `--seed` and `--size`.
    Gen { seed: u64, size: u32 },
}
