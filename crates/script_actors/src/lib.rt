//! The actors of a script: the behaviour of each, and the names that it keeps between its turns.
#![tactic(auto)]

mod actors;
mod begin;
pub mod laws;
mod rows;
mod steps;

pub use actors::ScriptActors;
pub use rows::Row;
pub use steps::next_step;

#[cfg(test)]
mod tests;
