//! Keys and records.

ghost use Rattle.std.specs.Prelude.{◌≡◌, IfOk};

use gql_values3::{Bytes, Keyed, OutOfMemory};
use std::alloc::Global;

/// The key of a record. Keys are ordered by bytes.
pub type Key = Bytes;

/// A key and its value.
#[derive(Debug, Drop)]
pub struct Record {
    pub key: Key,
    pub value: Bytes,
}

impl Record {
    pub fn try_copy(&self, alloc: Global) -> Result<Record, OutOfMemory>
        ensures { IfOk result (λ copy. copy ≡ self.now) }
    {
        Ok(Record {
            key: self.key.try_copy(alloc)?,
            value: self.value.try_copy(alloc)?,
        })
    }
}

impl Keyed for Record {
    ghost key_bytes = { λ r. r.key };

    fn key(&self) -> &[u8] {
        self.key.as_slice()
    }
}
