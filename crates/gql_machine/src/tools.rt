//! What a run works with from its first piece to its last.
use std::alloc::Global;

/// The memory, and the matcher by which path patterns are searched.
#[derive(Drop)]
pub struct Tools<'a, M> {
    pub alloc: Global,
    pub matcher: &'a M,
}
