//! Tests of the world, of the parts that it is made of, and of the second opinion on its histories.
#![tactic(auto)]

#[cfg(test)]
mod admissions;
#[cfg(test)]
mod links;
#[cfg(test)]
mod message_ways;
#[cfg(test)]
mod quiescence;
#[cfg(test)]
mod worlds;
