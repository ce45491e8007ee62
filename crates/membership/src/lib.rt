//! Which nodes are removed, and which are lost, by the Finals that are noted.
#![tactic(auto)]

mod finals;
pub mod laws;

pub use finals::Finals;

#[cfg(test)]
mod tests;
