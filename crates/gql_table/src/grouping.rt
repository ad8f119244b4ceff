//! What stays the same throughout a grouped RETURN.

use crate::prepared_items::PreparedItem;
use gql_values3::View;
use std::alloc::Global;

/// Where the memory comes from, the graph, and the items.
#[derive(Drop)]
pub struct Grouping<'v, 's, 'p, V: View> {
    pub alloc: Global,
    pub view: &'v V,
    pub items: &'s [PreparedItem<'p>],
}
