//! ORDER BY, OFFSET and LIMIT: the keys that sort rows, and how many of them are kept.

use crate::expr::Expr;
use gql_values3::{Sequence, Text};

/// The way in which a sort key orders rows. No word means ASC.
#[derive(Clone, Copy, Debug, PartialEq, Eq)]
pub enum SortDirection {
    Ascending,
    Descending,
}

/// Where rows whose sort key is NULL go.
#[derive(Clone, Copy, Debug, PartialEq, Eq)]
pub enum NullOrder {
    First,
    Last,
}

/// A key of ORDER BY.
#[derive(Drop)]
pub struct SortItem {
    pub key: Expr,
    pub direction: SortDirection,
    pub nulls: Option<NullOrder>,
}

/// The keys of an ORDER BY, the first deciding first.
pub type SortItems = Sequence<SortItem>;

/// How many rows OFFSET and LIMIT speak of.
#[derive(Drop)]
pub enum RowCount {
    /// A number, by its digits as written.
    Number(Text),
    /// A parameter, by its name without `$`.
    Parameter(Text),
}

/// ORDER BY, OFFSET and LIMIT as a clause of their own, each variant with what stands behind its first word.
#[derive(Drop)]
pub enum Page {
    Order(SortItems, Option<RowCount>, Option<RowCount>),
    Skip(RowCount, Option<RowCount>),
    Limit(RowCount),
}
