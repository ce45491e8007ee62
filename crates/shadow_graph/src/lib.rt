//! The shadow graph: what all folded bulletins tell of actors and of the references between them.
#![tactic(auto)]

mod found;
mod graph;
pub mod laws;

pub use graph::ShadowGraph;
