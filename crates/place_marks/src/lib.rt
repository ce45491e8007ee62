//! Marks over a graph of places: what is reached from its starts along positive edges.
#![tactic(auto)]

mod graph;
mod marks;
mod rounds;

pub use graph::PlaceGraph;
pub use marks::{Marks, mark, mark_rounds};

#[cfg(test)]
mod tests;
