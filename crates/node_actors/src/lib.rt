//! The actors of one node: the state of each, and what is counted of them.
#![tactic(auto)]

mod node;

pub use node::NodeActors;
