//! A job done for one input after the other.

ghost use Rattle.std.specs.Prelude.{IfOk};
ghost use Rattle.gql_fan.specs.Answers.{Answers};

use crate::job::Job;
use gql_values3::OutOfMemory;
use std::alloc::Global;

/// One input after the other, on the caller's thread.
pub fn in_turn<J: Job>(alloc: Global, job: &J, inputs: &[u32]) -> Result<Vec<J::Out>, OutOfMemory>
    ensures { IfOk result (λ outs. Answers (J.answers job.now) inputs.now outs.items) }
{
    let mut outs = Vec::with_capacity(alloc, inputs.len())?;
    for input in inputs {
        let out = job.work(alloc, *input)?;
        outs.push(out)?;
    }
    Ok(outs)
}
