//! A property of a type, read and written: its name, its kind, and whether it is NOT NULL.

use crate::counted::Counted;
use crate::kind::{kind_of, put_kind};
use gql_fields::{Misread, flag_of, put_flag, put_text, text_of};
use gql_graph::PropType;
use gql_values3::{Bytes, OutOfMemory};
use std::alloc::Global;

impl Counted for PropType {
    ghost use Rattle.std.specs.Prelude.{⊤};
    ghost use Rattle.gql_typecode.specs.TypeSpelling.{property_type_spelled};
    ghost use Rattle.gql_typecode.specs.KeptTypes.{IsKeptPropType};
    ghost use Rattle.gql_typecode.specs.Machinery.TypeReading.{property_type_at};

    ghost at = { property_type_at };

    ghost spelled = { property_type_spelled };

    ghost in_order = { λ _. ⊤ };

    ghost kept = { IsKeptPropType };

    #[tactic(auto, unfolding(crate::specs::Machinery::TypeReading::property_type_at))]
    fn read(alloc: Global, bytes: &[u8]) -> Result<(PropType, &[u8]), Misread> {
        let (name, rest) = text_of(alloc, bytes)?;
        let (kind, rest) = kind_of(rest)?;
        let (required, rest) = flag_of(rest)?;
        let found = PropType {
            name,
            kind,
            required,
        };
        Ok((found, rest))
    }

    fn put(&self, out: &mut Bytes) -> Result<(), OutOfMemory> {
        put_text(out, self.name.as_str())?;
        put_kind(out, self.kind)?;
        put_flag(out, self.required)
    }
}
