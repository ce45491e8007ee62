//! Quiescence and quiet points as plain programs over a history, for tests: each answer is computed anew from all events, and
//! is that of the definition in every history, legal or not.
#![tactic(auto)]

mod actors;
mod constants;
mod held;
mod links;
mod logs;
mod messages;
mod nodes;
mod quiescence;
mod quiet_points;
mod streams;

pub use quiescence::is_quiescent;
pub use quiet_points::is_quiet_point;
