//! The fan of one thread, the caller's.

use crate::fan::Fan;
use std::marker::{PhantomData, Sync};
use std::thread;

/// The caller's thread alone. The type parameter names a runtime of which nothing is used.
#[derive(Drop)]
pub struct Serial<R> {
    unused: PhantomData<R>,
}

impl<R> Serial<R> {
    pub fn new() -> Serial<R> {
        Serial {
            unused: PhantomData,
        }
    }
}

impl<R: thread::Threads + Sync> Fan for Serial<R> {
    type Runtime = R;

    fn threads(&self, _inputs: usize, _workers: u32) -> Option<&R> {
        None
    }
}
