//! What a run does: rounds, the turns of actors, the fixed schedule, and which histories follow a script; and their laws.
#![tactic(auto)]

pub mod round_laws;
pub mod run_laws;
