//! A collector and the calls of the pass that claimed its node: laws.
#![tactic(auto)]

pub mod laws;
