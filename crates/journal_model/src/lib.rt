//! What a journal and a report look like, and the limits of a history: definitions, and the types that they speak of.
#![tactic(auto)]

mod lines;

pub use lines::{CountList, Line, LineFault, NodeList};
