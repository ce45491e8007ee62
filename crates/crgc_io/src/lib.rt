//! Where the program's bytes come from and go to: sources and sinks that count their faults, and
//! gates at which the turns of actors begin.
#![tactic(auto)]

mod calls;
mod edges;
mod gate;
mod memory;
mod record;
#[cfg(test)]
mod tests;
mod traits;
mod whole;

pub use edges::{StdSink, StdSource};
pub use gate::{Gate, HoldGate, QuietGate};
pub use memory::{MemorySink, MemorySource};
pub use traits::{Failed, Sink, Source};
pub use whole::{ReadAll, WriteFault, read_all, write_all};
