//! What stands between the brackets of a node or an edge of a pattern, and the maps that may stand there.

use crate::expr::Expr;
use crate::label::LabelExpr;
use gql_values3::{Sequence, Text};

/// A name of a map, and the expression of its value.
#[derive(Drop)]
pub struct MapItem {
    pub name: Text,
    pub value: Expr,
}

/// The items of a map, as `{n: 1, m: 2}` has them.
pub type Map = Sequence<MapItem>;

/// What an element of a pattern must fulfil beside its labels.
#[derive(Drop)]
pub enum Condition {
    /// Its properties have these values.
    Map(Map),
    /// This holds.
    Where(Expr),
}

/// What stands between the brackets of a node or an edge of a pattern.
#[derive(Drop)]
pub struct Filler {
    pub variable: Option<Text>,
    pub labels: Option<LabelExpr>,
    pub condition: Option<Condition>,
}
