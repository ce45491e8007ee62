//! Tests of the collectors of nodes and of the parts that they are made of.
#![tactic(auto)]

#[cfg(test)]
mod courses;
#[cfg(test)]
mod edges;
#[cfg(test)]
mod marks;
#[cfg(test)]
mod sweeps;
