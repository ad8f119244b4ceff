//! The types of plain values, and of what a property may hold.

/// The types of plain values that a query may name.
#[derive(Clone, Copy, Debug, PartialEq, Eq)]
pub enum Scalar {
    Bool,
    Int,
    Text,
}

/// What a property may hold by its type.
#[derive(Clone, Copy, Debug, PartialEq, Eq)]
pub enum PropKind {
    /// A value.
    One(Scalar),
    /// A list of such values, and NULL among them unless `required`, which NOT NULL behind the item says.
    Many { item: Scalar, required: bool },
}
