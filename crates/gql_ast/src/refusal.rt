//! What comes of a statement: a table, no more than that it was done, or a refusal and why.

use crate::fault::DataFault;
use gql_values3::{EdgeId, Elem, NodeId, Table, Text, Value};

/// Which column a refusal speaks of.
#[derive(Debug, Drop)]
pub enum ColumnRef {
    /// A column, by its name.
    Name(Text),
    /// A property that a map or a type names twice.
    Property(Text),
    /// `*`
    All,
}

/// A kind of element.
#[derive(Clone, Copy, Debug, PartialEq, Eq)]
pub enum ElemKind {
    Node,
    Edge,
}

/// Why a statement is refused, by its code and word.
#[derive(Debug, Drop)]
pub enum Refusal {
    /// E01 LEX
    Lex,
    /// E02 DEEP
    Deep,
    /// E03 SYNTAX
    Syntax,
    /// E04 NUMBER: the digits as written.
    Number(Text),
    /// E05 BOUNDS: the number by its digits.
    Bounds(Text),
    /// E06 NO_SUCH
    NoSuch(Text),
    /// E07 EXISTS
    Exists(Text),
    /// E08 VARIABLE
    Variable(Text),
    /// E09 KIND
    Kind(Text),
    /// E10 GROUP_JOIN
    GroupJoin(Text),
    /// E11 COND_JOIN
    CondJoin(Text),
    /// E12 EMPTY_LOOP
    EmptyLoop,
    /// E13 UNBOUNDED
    Unbounded,
    /// E14 GROUP_REF
    GroupRef(Text),
    /// E15 MISUSE
    Misuse,
    /// E16 COLUMN
    Column(ColumnRef),
    /// E17 TRANSACTION
    Transaction,
    /// E18 DATA
    Fault(DataFault),
    /// E19 TYPE
    Misfit(Elem),
    /// E20 EDGES: a node, and an edge on it.
    Edges {
        node: NodeId,
        edge: EdgeId,
    },
    /// E21 CONFLICT: a property of an element, and two values for it.
    Conflict {
        elem: Elem,
        property: Text,
        first: Value,
        second: Value,
    },
    /// E22 STORE
    Store,
    /// E23 PARAM: the parameter's name without `$`.
    Parameter(Text),
    /// E24 FULL
    Full(ElemKind),
}

/// What comes of a statement.
#[derive(Debug, Drop)]
pub enum Outcome {
    Done,
    Table(Table),
    Refused(Refusal),
}
