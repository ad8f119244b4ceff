//! A row of an INSERT with what it says of each spot, before anything is made.

use gql_values3::{Properties, Row, Sequence};

/// What a row says of a spot of an INSERT.
#[derive(Debug, Drop)]
pub enum Spot {
    /// The node stands already: its place in the row, which an earlier spot may have to fill.
    Refers(usize),
    /// The element is new: whether it gives a column, and its properties in the order of the text, NULL among them.
    New { named: bool, properties: Properties },
}

/// A row, with what it says of each spot in the order of the text.
#[derive(Debug, Drop)]
pub struct Line {
    pub row: Row,
    pub spots: Sequence<Spot>,
}
