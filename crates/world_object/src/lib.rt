//! The cluster that threads share: the state that a turn lock guards, and its operations, each of which is one step of one history.
#![tactic(auto)]

mod acting;
mod beginning;
mod carrying;
mod claiming;
mod cluster;
mod collecting;
mod granting;
mod making;
mod parts;
mod reading;
mod refusing;
mod resting;
mod searching;
mod shared;
mod telling;
mod turning;
mod verdicts;

pub use cluster::Cluster;
pub use shared::Shared;
