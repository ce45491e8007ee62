//! The table of actors: which nodes are up, who was born there, and the state of each actor.
#![tactic(auto)]

pub mod laws;
mod table;

pub use table::Roster;
