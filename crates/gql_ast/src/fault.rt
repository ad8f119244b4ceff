//! The faults of values, for which an expression has no value.

/// A fault of a value that is met while a statement runs: why an expression has no value.
#[derive(Clone, Copy, Debug, PartialEq, Eq)]
pub enum DataFault {
    DivideByZero,
    /// A result beyond 64 bits.
    Overflow,
    /// A value of a kind that is not taken there.
    WrongKind,
    NotComparable,
    /// Something is asked of a deleted element.
    Deleted,
    /// A list nested more than 64 deep.
    TooDeep,
    /// A string or a list past its limit.
    TooLarge,
}
