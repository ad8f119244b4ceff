//! The clauses that change data: INSERT, SET, REMOVE and DELETE.

use crate::expr::Expr;
use crate::filler::Map;
use gql_values3::{Names, Sequence, Text};

/// The direction of an edge that is inserted or that a graph type allows.
#[derive(Clone, Copy, Debug, PartialEq, Eq)]
pub enum Arrow {
    /// `-[ ]->`
    Right,
    /// `<-[ ]-`
    Left,
    /// `~[ ]~`
    Undirected,
}

/// What stands between the brackets of an element to be inserted.
#[derive(Drop)]
pub struct Fill {
    pub variable: Option<Text>,
    pub labels: Option<Names>,
    pub map: Option<Map>,
}

/// An edge to be inserted, and the node to which it leads.
#[derive(Drop)]
pub struct InsertStep {
    pub arrow: Arrow,
    pub edge: Fill,
    pub node: Fill,
}

/// A path to be inserted: its first node, and its steps in order.
#[derive(Drop)]
pub struct InsertPath {
    pub start: Fill,
    pub steps: Sequence<InsertStep>,
}

/// What SET does to a variable.
#[derive(Drop)]
pub enum SetItem {
    /// The variable, its property, and the new value.
    Property(Text, Text, Expr),
    /// The variable, and the label that it gets.
    Label(Text, Text),
}

/// What REMOVE takes from a variable.
#[derive(Drop)]
pub enum RemoveItem {
    /// The variable, and its property.
    Property(Text, Text),
    /// The variable, and the label.
    Label(Text, Text),
}

/// Whether DELETE takes the edges of a node with it. No word means NODETACH.
#[derive(Clone, Copy, Debug, PartialEq, Eq)]
pub enum Detachment {
    Detach,
    NoDetach,
}

/// A clause that changes the graph.
#[derive(Drop)]
pub enum ChangeClause {
    Insert(Sequence<InsertPath>),
    Set(Sequence<SetItem>),
    Remove(Sequence<RemoveItem>),
    Delete(Detachment, Names),
}
