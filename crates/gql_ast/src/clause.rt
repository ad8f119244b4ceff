//! The clauses of a query, and the query that they make.

use crate::change::ChangeClause;
use crate::expr::Expr;
use crate::page::Page;
use crate::path::GraphPattern;
use crate::projection::Return;
use gql_values3::{Sequence, Text};

/// MATCH, or OPTIONAL MATCH.
#[derive(Drop)]
pub struct Match {
    pub optional: bool,
    pub pattern: GraphPattern,
}

/// A name that LET gives to the value of an expression.
#[derive(Drop)]
pub struct LetItem {
    pub name: Text,
    pub value: Expr,
}

/// The names of a LET in order.
pub type LetItems = Sequence<LetItem>;

/// From where WITH counts the items of a FOR.
#[derive(Clone, Copy, Debug, PartialEq, Eq)]
pub enum Counting {
    /// From 1.
    Ordinality,
    /// From 0.
    Offset,
}

/// FOR: the name of an item, the list, and how its items are counted under which name, if they are.
#[derive(Drop)]
pub struct For {
    pub name: Text,
    pub list: Expr,
    pub counter: Option<(Counting, Text)>,
}

/// A clause of a query. `Return` stands at the end of a query alone.
#[derive(Drop)]
pub enum Clause {
    Match(Match),
    Let(LetItems),
    Filter(Expr),
    For(For),
    Page(Page),
    Change(ChangeClause),
    Return(Return),
}

/// A query: its clauses in order. The last one is a `Return` or a `Change`.
#[derive(Drop)]
pub struct Query {
    pub clauses: Sequence<Clause>,
}
