//! Whether a spot of an INSERT stands for a node that is there or for a new element.

/// What the columns before a spot of an INSERT say of it.
#[derive(Clone, Copy, Debug, PartialEq, Eq)]
pub enum Role {
    /// The node stands already: its place in the row, which an earlier spot may have to fill.
    Refers(usize),
    /// The element is new; whether it gives a column.
    New { named: bool },
}
