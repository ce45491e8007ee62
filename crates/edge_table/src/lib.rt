//! The edges of a graph, each from an owner to a target: numbered, counted, and listed by the places of both.
#![tactic(auto)]

mod edge_list;
mod ends;
mod far_edges;
pub mod laws;
mod near;
mod pages;
mod partition;
mod positive;
mod table;

pub use table::{Edge, EdgeTable};
