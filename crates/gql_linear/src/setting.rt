//! What stays the same while a query runs.

use gql_values3::Params;
use std::alloc::Global;

/// The allocator, the matcher of path patterns, and the parameters.
#[derive(Drop)]
pub struct QuerySetting<'a, M> {
    pub alloc: Global,
    pub matcher: &'a M,
    pub params: &'a Params,
}
