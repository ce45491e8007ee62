//! The messages between the actors: those that are under way, those that wait, and who may take one.
#![tactic(auto)]

pub mod laws;
mod loads;
mod ready_changes;
mod traffic;

pub use traffic::Traffic;
