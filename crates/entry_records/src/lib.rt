//! An actor's log: what it noted since its last flush, and the entry of the next one.
#![tactic(auto)]

mod actor_log;
mod ends;
pub mod laws;
mod notes;

pub use actor_log::ActorLog;
