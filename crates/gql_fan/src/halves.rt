//! The inputs cut in two as the workers are, and both parts at once, down to one worker.

ghost use Rattle.std.specs.Prelude.{◌≡◌, ◌≤◌, ◌*◌, ◌/◌, IfOk};
ghost use Rattle.std.specs.Thread.{IsSync};
ghost use Rattle.gql_fan.specs.Answers.{Answers};

use crate::in_turn::in_turn;
use crate::job::Job;
use gql_values3::OutOfMemory;
use std::alloc::Global;
use std::marker::{Send, Sync};
use std::thread;

/// The inputs by halves of the workers, each half in a thread of its own.
pub fn in_halves<R: thread::Threads + Sync, J: Job + Sync>(
    runtime: &R,
    alloc: Global,
    job: &J,
    inputs: &[u32],
    workers: u32,
) -> Result<Vec<J::Out>, OutOfMemory>
where
    J::Out: Send,
    requires { 1 ≤ workers }
    ensures { IfOk result (λ outs. Answers (J.answers job.now) inputs.now outs.items) }
{
    if workers <= 1 || inputs.len() <= 1 {
        return in_turn(alloc, job, inputs);
    }
    let few = workers / 2;
    let rest = workers - few;
    let (left, right) = inputs.split_at(cut_at(inputs.len(), few, workers));
    let (first, second) = thread::join(
        runtime,
        || -> Result<Vec<J::Out>, OutOfMemory>
            requires { IsSync R.row × IsSync J.row × (1 ≤ few) }
            ensures { IfOk result (λ outs. Answers (J.answers job.entry.now) left.entry.now outs.items) }
        { in_halves(runtime, alloc, job, left, few) },
        || -> Result<Vec<J::Out>, OutOfMemory>
            requires { IsSync R.row × IsSync J.row × (1 ≤ rest) }
            ensures { IfOk result (λ outs. Answers (J.answers job.entry.now) right.entry.now outs.items) }
        { in_halves(runtime, alloc, job, right, rest) },
    );
    let mut outs = first?;
    let mut others = second?;
    outs.append(&mut others)?;
    Ok(outs)
}

/// Where the share of so few of the workers ends. The shares of all differ by at most one input where there are no more workers
/// than inputs.
#[tactic(auto, using(crate::proofs::ShareLemmas::share))]
fn cut_at(count: usize, few: u32, workers: u32) -> usize
    requires { (few ≤ workers) × (1 ≤ workers) }
    ensures share { result ≡ count * few / workers }
    ensures most { result ≤ count }
{
    let whole = workers as usize;
    let part = few as usize;
    let even = count / whole * part;
    let odd = count % whole * part / whole;
    even + odd
}
