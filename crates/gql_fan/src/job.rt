//! What is to be done with each input.

ghost use Rattle.std.specs.Prelude.{ℕ, IfOk};

use gql_values3::OutOfMemory;
use std::alloc::Global;

/// Work on one input, which may be done on any thread and in any order.
pub trait Job {
    type Out: Drop;

    /// The output answers the input.
    ghost answers: { Self → ℕ → Self.Out → Type 0 };

    fn work(&self, alloc: Global, input: u32) -> Result<Self::Out, OutOfMemory>
        ensures { IfOk result (λ out. answers self.now input out) };
}
