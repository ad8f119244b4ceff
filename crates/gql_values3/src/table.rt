//! Columns, rows and tables, the parameters of a query, and what the names of a match stand for.

use crate::element::Elem;
use crate::properties::Properties;
use crate::sequence::{Names, Sequence};
use crate::text::Text;
use crate::value::List;

/// What a column of a pattern's matches holds. NULL may stand in each.
#[derive(Clone, Copy, Debug, PartialEq, Eq)]
pub enum ColumnKind {
    /// A node.
    Node,
    /// An edge.
    Edge,
    /// A list of nodes.
    Nodes,
    /// A list of edges.
    Edges,
    /// A path.
    Path,
    /// Any value.
    Plain,
}

/// The names of columns, each with what it holds, in order.
pub type Columns = Sequence<(Text, ColumnKind)>;

/// The values of a row, in the order of the columns.
pub type Row = List;

/// Rows in order.
pub type Rows = Sequence<Row>;

/// The parameters of a query: pairs of a name and a value, in any order.
pub type Params = Properties;

/// The names of columns, and rows with as many values.
#[derive(Debug, Drop)]
pub struct Table {
    pub columns: Names,
    pub rows: Rows,
}

/// Nodes and edges in order.
pub type Elems = Sequence<Elem>;

/// What a name stands for in a match.
#[derive(Debug, Drop)]
pub enum Binding {
    /// Nothing.
    Unbound,
    /// One element.
    One(Elem),
    /// The elements of the rounds of a repetition, in order.
    Many(Elems),
}

/// The names of a match, each with what it stands for.
pub type Bound = Sequence<(Text, Binding)>;
