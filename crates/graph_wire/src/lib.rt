//! Bulletins to bytes and back: each has one spelling, and bytes that spell none have one first fault.
#![tactic(auto)]

mod bulletins;
mod fault;
mod names;
mod reading;
mod spare;
mod table;
mod writing;

pub use bulletins::{read, read_into};
pub use fault::ReadFault;
pub use spare::Spare;
pub use wire_grammar::{WireFault, WireKind};
pub use writing::write;
