//! The course of a cluster: its history as it goes on, with the collectors of its nodes and the verdicts of its sweeps.
#![tactic(auto)]

mod collected_world;
mod course;
mod halt;
pub mod laws;
mod telling;

pub use course::Course;
pub use halt::Halt;
pub use telling::is_sweep;
