//! Scripts as JSON text: the script that a text stands for, or its first fault.
#![tactic(auto)]

pub mod draft;
mod fault;
mod instructions;
pub mod laws;
mod names;
mod numbers;
mod read;
mod rows;
mod script;
mod ties;
mod walk;
mod words;

pub use fault::{Flaw, ScriptFault, ScriptRead};
pub use read::read_script;
pub use script::{Script, Seed, SeedList, Tie, TieList};
pub use words::Word;
