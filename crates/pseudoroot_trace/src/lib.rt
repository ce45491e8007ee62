//! Which actors a collector's sweep marks: those that it can reach from pseudoroots.
#![tactic(auto)]

pub mod laws;
mod marks;
mod touch;
mod trace;
mod traced;

pub use marks::{Marks, mark, mark_rounds};
pub use trace::Trace;
pub use traced::TracedGraph;
