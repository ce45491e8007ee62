//! The limits of a history and of what is read.

/// How many bytes of input are read at most.
pub const MOST_BYTES: usize = 16_777_216;

/// How many events a history has at most; a node publishes fewer bulletins.
pub const MOST_EVENTS: u32 = 1_000_000;

/// How many actors a node has had at most; their serials are below it.
pub const MOST_ACTORS: u32 = 262_144;

/// How many actors one bulletin names at most.
pub const MOST_NAMED: usize = 200_000;
