//! The rules of legality, over whatever can tell the state of a cluster.
#![tactic(auto)]

mod actors;
mod links;
mod moment;
mod nodes;
mod rules;
mod sends;

pub use moment::Moment;
pub use rules::refusal;

#[cfg(test)]
mod tests;
