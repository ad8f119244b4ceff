//! Graph types: the nodes and edges that a typed graph may hold.

use crate::change::Arrow;
use gql_values3::{Names, PropKind, Sequence, Text};

/// A property of an element of a graph type. `required` is NOT NULL behind its type.
#[derive(Drop)]
pub struct TypeProperty {
    pub name: Text,
    pub kind: PropKind,
    pub required: bool,
}

/// The labels and properties of an element of a graph type, where they stand.
#[derive(Drop)]
pub struct ElementBody {
    pub labels: Option<Names>,
    pub properties: Option<Sequence<TypeProperty>>,
}

/// An element of a graph type.
#[derive(Drop)]
pub enum TypeElement {
    /// A node type, by its alias where it has one.
    Node(Option<Text>, ElementBody),
    /// An edge type between two aliases, in the order of the text.
    Edge(Text, Arrow, ElementBody, Text),
}

/// What stands between the braces of a graph type.
#[derive(Drop)]
pub struct TypeBody {
    pub elements: Sequence<TypeElement>,
}
