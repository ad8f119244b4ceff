//! The words of expressions, where one of several stands in one place.

/// An operator between two sides of a chain.
#[derive(Clone, Copy, Debug, PartialEq, Eq)]
pub enum Operator {
    Or,
    Xor,
    And,
    /// `+`
    Add,
    /// `-`
    Subtract,
    /// `||`
    Concatenate,
    /// `*`
    Multiply,
    /// `/`
    Divide,
}

/// A sign before an operand.
#[derive(Clone, Copy, Debug, PartialEq, Eq)]
pub enum Sign {
    Plus,
    Minus,
}

/// Whether a test asks for something or for its absence.
#[derive(Clone, Copy, Debug, PartialEq, Eq)]
pub enum Sense {
    /// IS
    Is,
    /// IS NOT
    IsNot,
}

/// What IS asks of a value by one word.
#[derive(Clone, Copy, Debug, PartialEq, Eq)]
pub enum Quality {
    Null,
    True,
    False,
    Unknown,
    Directed,
}

/// An end of a directed edge.
#[derive(Clone, Copy, Debug, PartialEq, Eq)]
pub enum EdgeEnd {
    Source,
    Destination,
}

/// What an aggregate makes of many values.
#[derive(Clone, Copy, Debug, PartialEq, Eq)]
pub enum Aggregate {
    Count,
    Sum,
    Min,
    Max,
    CollectList,
}

/// Whether equal values or rows are dropped. ALL means the same as no word.
#[derive(Clone, Copy, Debug, PartialEq, Eq)]
pub enum SetQuantifier {
    All,
    Distinct,
}

/// A function of one value.
#[derive(Clone, Copy, Debug, PartialEq, Eq)]
pub enum Function {
    Abs,
    CharLength,
    Cardinality,
    PathLength,
    Elements,
}
