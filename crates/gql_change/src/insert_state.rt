//! How far an INSERT has come while its changes are worked out.

use crate::remaining::Spots;
use gql_graph::Changes;
use gql_values3::Row;

/// An INSERT in the making: the changes so far, the numbers that the next new elements take, and the row in hand with
/// its spots that are left.
#[derive(Drop)]
pub struct InsertState {
    pub changes: Changes,
    pub next_node: u32,
    pub next_edge: u32,
    pub row: Row,
    pub spots: Spots,
}
