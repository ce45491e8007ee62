//! The state of one actor.
#![tactic(auto)]

mod state;

pub use state::ActorState;
