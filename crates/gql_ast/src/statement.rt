//! Statements: queries, and what is said about the session, transactions, graphs and graph types.

use crate::clause::Query;
use crate::expr::Expr;
use crate::graph_type::TypeBody;
use gql_values3::Text;

/// A statement about the session.
#[derive(Drop)]
pub enum SessionStatement {
    /// SESSION SET GRAPH and the graph's name.
    SetGraph(Text),
    /// SESSION SET VALUE: a parameter's name without `$`, and its value.
    SetValue(Text, Expr),
    Reset,
    Close,
}

/// What a transaction may do. No word means READ WRITE.
#[derive(Clone, Copy, Debug, PartialEq, Eq)]
pub enum AccessMode {
    ReadOnly,
    ReadWrite,
}

/// A statement about transactions.
#[derive(Clone, Copy, Debug, PartialEq, Eq)]
pub enum TransactionStatement {
    Start(AccessMode),
    Commit,
    Rollback,
}

/// What a graph may hold.
#[derive(Drop)]
pub enum GraphKind {
    /// Everything.
    Any,
    /// What the graph type of this name allows.
    Typed(Text),
}

/// A statement about the graphs and graph types. `lenient` is IF NOT EXISTS of CREATE, and IF EXISTS of DROP.
#[derive(Drop)]
pub enum CatalogStatement {
    CreateGraph {
        lenient: bool,
        name: Text,
        kind: GraphKind,
    },
    DropGraph {
        lenient: bool,
        name: Text,
    },
    CreateType {
        lenient: bool,
        name: Text,
        body: TypeBody,
    },
    DropType {
        lenient: bool,
        name: Text,
    },
}

/// A statement: one piece of a session.
#[derive(Drop)]
pub enum Statement {
    Query(Query),
    Session(SessionStatement),
    Transaction(TransactionStatement),
    Catalog(CatalogStatement),
}
