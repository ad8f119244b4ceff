//! What a fan is: it says which threads there are, and the trait puts them to work.

ghost use Rattle.std.specs.Prelude.{◌≤◌, IfOk};
ghost use Rattle.gql_fan.specs.Answers.{Answers};

use crate::halves::in_halves;
use crate::in_turn::in_turn;
use crate::job::Job;
use gql_values3::{OutOfMemory, Sequence};
use std::alloc::Global;
use std::marker::{Send, Sync};
use std::thread;

/// Outputs, in the order of their inputs.
pub type Outs<Out> = Sequence<Out>;

/// A way to work on many inputs.
pub trait Fan: Sync {
    type Runtime: thread::Threads + Sync;

    /// The runtime that starts threads for so many inputs and workers, or None where the caller's thread does it all. It is asked
    /// once in each run.
    fn threads(&self, inputs: usize, workers: u32) -> Option<&Self::Runtime>;

    /// Works on each input, on at most so many threads.
    final fn run<J: Job + Sync>(
        &self,
        alloc: Global,
        job: &J,
        inputs: &[u32],
        workers: u32,
    ) -> Result<Outs<J::Out>, OutOfMemory>
    where
        J::Out: Send,
        requires least { 1 ≤ workers }
        requires most { workers ≤ 64 }
        ensures { IfOk result (λ outs. Answers (J.answers job.now) inputs.now outs) }
    {
        let outs = match self.threads(inputs.len(), workers) {
            Some(runtime) => in_halves(runtime, alloc, job, inputs, workers)?,
            None => in_turn(alloc, job, inputs)?,
        };
        Ok(Outs::from_vec(outs))
    }
}
