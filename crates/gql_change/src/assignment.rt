//! What SET and REMOVE do to elements, as data that is worked out before anything is changed.

use gql_values3::{Elem, Text, Value};

/// What SET or REMOVE does to one element.
#[derive(Debug, Drop)]
pub enum Act {
    /// The property of this name gets the value; NULL takes it away.
    Property(Text, Value),
    /// The element gets the label.
    Label(Text),
    /// The element loses the label.
    NoLabel(Text),
}

/// An act on an element of the graph, as the expressions of a row gave it.
#[derive(Debug, Drop)]
pub struct Assignment {
    pub target: Elem,
    pub act: Act,
}
