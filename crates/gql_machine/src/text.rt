//! The buffer that holds an outcome's text.
ghost use Rattle.std.specs.Prelude.{◌≡◌, [], OnOk};
ghost use Rattle.gql_text.specs.OutcomeText.{outcome_text};

use gql_ast::Outcome;
use gql_text::put_outcome;
use gql_values3::{Bytes, OutOfMemory};
use std::alloc::Global;
use std::mem;

/// The most bytes of the buffer that is kept from one statement to the next.
const KEPT: usize = 65_536;

/// Leaves the outcome's text in the buffer, whose bytes are lost.
pub fn write_text(alloc: Global, outcome: &Outcome, buffer: &mut Bytes) -> Result<(), OutOfMemory>
    ensures { OnOk result (buffer.new ≡ outcome_text outcome.now) }
{
    clear(alloc, buffer);
    put_outcome(alloc, outcome, buffer)
}

/// Empties the buffer. A large one is given back, so that later statements have its memory.
pub fn clear(alloc: Global, buffer: &mut Bytes)
    ensures { buffer.new ≡ [] }
{
    let mut bytes = mem::replace(buffer, Bytes::new(alloc)).into_vec();
    if bytes.len() > KEPT {
        return;
    }
    bytes.clear();
    *buffer = Bytes::from_vec(bytes);
}
