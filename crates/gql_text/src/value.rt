//! The text of a value alone, as a cell of a table has it.

ghost use Rattle.std.specs.Prelude.{◌≡◌, ◌++◌, OnOk, OnErr};
ghost use Rattle.gql_values3.specs.Meaning.{datum_of};
ghost use Rattle.gql_ast.specs.ValueText.{value_text};

use gql_ast::push_value;
use gql_values3::{Bytes, OutOfMemory, Text, Value};
use std::alloc::Global;

/// Adds the text of a value to the bytes; an Err leaves them as they were.
pub fn put_value(alloc: Global, value: &Value, out: &mut Bytes) -> Result<(), OutOfMemory>
    ensures ok { OnOk result (out.new ≡ out.old ++ value_text (datum_of value.now)) }
    ensures err { OnErr result (out.new ≡ out.old) }
{
    let mut text = Text::new(alloc);
    push_value(&mut text, value)?;
    out.append(text.as_str().as_bytes())
}
