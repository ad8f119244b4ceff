//! The fan that puts several threads to work.

use crate::fan::Fan;
use std::marker::Sync;
use std::thread;

/// Threads of a runtime, and the caller's thread alone where there is one worker.
#[derive(Drop)]
pub struct Threads<'a, R> {
    pub runtime: &'a R,
}

impl<'a, R: thread::Threads + Sync> Fan for Threads<'a, R> {
    type Runtime = R;

    fn threads(&self, _inputs: usize, workers: u32) -> Option<&R> {
        if workers <= 1 {
            None
        } else {
            Some(self.runtime)
        }
    }
}
