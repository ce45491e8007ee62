//! The words of the command line: which command they spell.
#![tactic(auto)]

mod command;
pub mod laws;
mod number;
mod reading;
mod setting;

pub use command::Command;
pub use reading::{read_command, wants_workers};

#[cfg(test)]
mod tests;
