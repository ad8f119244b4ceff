//! A value that is owned, or borrowed where it stands.

ghost use Rattle.std.specs.Prelude.{◌≡◌, IfOk};
ghost use Rattle.gql_values3.specs.Meaning.{datum_of};
ghost use Rattle.gql_eval.specs.CowValue.{cow_datum};

use gql_values3::{OutOfMemory, Value};
use std::alloc::Global;

/// A value of its own, or one that stands elsewhere and isn't copied. Its meaning is `cow_datum`.
#[derive(Drop)]
pub enum CowValue<'a> {
    Owned(Value),
    Borrowed(&'a Value),
}

impl<'a> CowValue<'a> {
    /// The value, wherever it stands.
    pub fn value(&self) -> &Value
        ensures { datum_of result.now ≡ cow_datum self.now }
    {
        match self {
            CowValue::Owned(value) => value,
            CowValue::Borrowed(value) => *value,
        }
    }

    /// The value as one's own; one that is lent is copied.
    pub fn into_value(self, alloc: Global) -> Result<Value, OutOfMemory>
        ensures { IfOk result (λ value. datum_of value ≡ cow_datum self.entry) }
    {
        match self {
            CowValue::Owned(value) => Ok(value),
            CowValue::Borrowed(value) => value.try_copy(alloc),
        }
    }
}
