//! What is wrong with bytes that spell no bulletin.

/// The kind of the first fault, from left to right.
#[derive(Clone, Copy, PartialEq, Eq, Debug)]
pub enum WireKind {
    /// Fewer bytes are left than the next field needs.
    Short,
    /// The first four bytes begin no bulletin.
    Magic,
    /// The kind is none of a Delta, a Window and a Final.
    Kind,
    /// A node is 16 or more, a serial is 262,144 or more, or a link leads from a node to itself.
    Node,
    /// An actor of the table or a row is not above the one before it.
    Order,
    /// An index is at or above the number of the table's actors.
    Index,
    /// A count of a row is 0.
    Zero,
    /// The flags of a state are above 3.
    Flags,
    /// All fields are read, and no row names some actor of the table.
    Unused,
    /// The form for more than 65,535 actors has a table of fewer.
    Narrow,
}

/// The first fault of bytes, and how many bytes stand before the field that has it.
#[derive(Clone, Copy, PartialEq, Eq, Debug)]
pub struct WireFault {
    pub kind: WireKind,
    pub offset: usize,
}
