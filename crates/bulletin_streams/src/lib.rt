//! What the nodes tell: the entries that wait for the next publish of each, and the stream of its bulletins.
#![tactic(auto)]

pub mod laws;
mod node_stream;
mod stream_bulletin;
mod streams;

pub use streams::BulletinStreams;

#[cfg(test)]
mod tests;
