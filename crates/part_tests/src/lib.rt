//! Tests of parts: the bytes of lines and bulletins, behaviours, and what is told of actors.
#![tactic(auto)]

#[cfg(test)]
mod behaviours;
#[cfg(test)]
mod corrections;
#[cfg(test)]
mod entries;
#[cfg(test)]
mod lines;
#[cfg(test)]
mod plain_reader;
#[cfg(test)]
mod sums;
#[cfg(test)]
mod wire;
