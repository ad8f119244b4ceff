//! What the columns alone tell of a spot of an INSERT, once for all rows.

use crate::role::Role;
use gql_ast::MapItem;

/// What is asked of a spot in each row: its role, and the properties that it gives.
#[derive(Clone, Copy)]
pub struct SpotQuestion<'a> {
    pub role: Role,
    pub items: &'a [MapItem],
}
