//! What stays the same while a clause is planned.

use gql_values3::{Columns, Params, View};
use std::alloc::Global;

/// What a clause is planned on: the graph before it, the columns of its rows, and the parameters.
#[derive(Drop)]
pub struct Basis<'a, V: View> {
    pub alloc: Global,
    pub view: &'a V,
    pub columns: &'a Columns,
    pub params: &'a Params,
}
