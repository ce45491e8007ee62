//! How much of its plan a run of a script has used: turns, wakes, and the rows of its losses, repeats and crashes.
#![tactic(auto)]

mod begin;
mod carry;
pub mod laws;
mod node;
mod progress;

pub use carry::Carry;
pub use progress::Progress;

#[cfg(test)]
mod tests;
