//! The spelling of lines, both ways.
#![tactic(auto)]

mod fault;
mod fields;
mod header;
pub mod laws;
mod lists;
mod pieces;
mod printing;
mod reading;
mod shapes;
mod spelling;
mod verdict;
mod words;

pub use fault::LineRead;
pub use header::read_header;
pub use journal_model::{CountList, Line, LineFault, NodeList};
pub use printing::{append_end, append_event, append_header};
pub use reading::read;
pub use spelling::print;
pub use verdict::append_verdict;
