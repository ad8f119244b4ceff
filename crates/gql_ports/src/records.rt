//! Records in the order of their keys, found by halving.

ghost use Rattle.std.specs.Prelude.{◌≡◌, ℕ, List, [], Some, None, length, map, IfOk, IfErr, OnOk, OnErr, true, if◌then◌else◌, slice_get};
ghost use Rattle.std.specs.Option.{option_copied};
ghost use Rattle.gql_values3.specs.Texts.{same_text};
ghost use Rattle.gql_ports.specs.Held.{keys_ascend, value_at};
ghost use Rattle.gql_ports.specs.Machinery.Place.{IsAt, IsGapFor};

use crate::stored::Record;
use gql_values3::{OutOfMemory, keys_ascend};
use std::alloc::Global;
use std::marker::Model;

/// Records whose keys strictly ascend by bytes, seen as their list.
#[derive(Debug, Drop)]
pub struct Records {
    items: Vec<Record>,
}

impl Model for Records {
    ghost use Rattle.std.specs.Prelude.{◌≡◌, List, true};
    ghost use Rattle.gql_ports.specs.declared.stored.Record.{Record};
    ghost use Rattle.gql_ports.specs.Held.{keys_ascend};

    ghost Value = { List Record };

    ghost view = { λ r. r.items.items };

    ghost invariant = { λ r. keys_ascend r.items.items ≡ true };
}

impl Records {
    pub fn new(alloc: Global) -> Records
        ensures { result ≡ [] }
    {
        Records {
            items: Vec::new(alloc),
        }
    }

    /// These records, or None where their keys do not strictly ascend by bytes.
    pub fn from_vec(items: Vec<Record>) -> Option<Records>
        ensures { result ≡ (if keys_ascend items.items then Some items.items else None) }
    {
        if keys_ascend(items.as_slice()) {
            Some(Records { items })
        } else {
            None
        }
    }

    /// The allocator that the records came from.
    pub fn allocator(&self) -> Global {
        *self.items.allocator()
    }

    pub fn len(&self) -> usize
        ensures count { result ≡ length self.now }
        ensures ascending { keys_ascend self.now ≡ true }
    {
        self.items.len()
    }

    /// All of them, in ascending order of their keys.
    pub fn as_slice(&self) -> &[Record]
        ensures { result.now ≡ self.now }
    {
        self.items.as_slice()
    }

    /// The record of that place, from 0, in ascending order of the keys.
    pub fn get(&self, index: usize) -> Option<&Record>
        ensures { option_copied result ≡ slice_get self.now index }
    {
        self.items.get(index)
    }

    pub fn try_copy(&self, alloc: Global) -> Result<Records, OutOfMemory>
        ensures { IfOk result (λ copy. copy ≡ self.now) }
    {
        Ok(Records {
            items: copy_all(alloc, self.items.as_slice())?,
        })
    }

    /// The value of a key, or None where it has none.
    pub fn value_of(&self, key: &[u8]) -> Option<&[u8]>
        ensures { option_copied result ≡ value_at self.now key.now }
    {
        match place_of(self.items.as_slice(), key) {
            Ok(place) => Some(self.items[place].value.as_slice()),
            Err(_) => None,
        }
    }

    /// Gives the key this value, in place of the one that it had. Without memory nothing changes.
    pub fn put(&mut self, record: Record) -> Result<(), OutOfMemory>
        ensures ok { OnOk result ((key : List ℕ) → value_at self.new key ≡ (if same_text key «record».key then Some «record».value else value_at self.old key)) }
        ensures err { OnErr result (self.new ≡ self.old) }
    {
        match place_of(self.items.as_slice(), record.key.as_slice()) {
            Ok(place) => {
                self.items[place] = record;
                Ok(())
            }
            Err(place) => Ok(self.items.insert(place, record)?),
        }
    }

    /// Takes the key's record away, where there is one.
    pub fn remove(&mut self, key: &[u8])
        ensures { (other : List ℕ) → value_at self.new other ≡ (if same_text other key.now then None else value_at self.old other) }
    {
        if let Ok(place) = place_of(self.items.as_slice(), key) {
            let _ = self.items.remove(place);
        }
    }
}

fn copy_all(alloc: Global, items: &[Record]) -> Result<Vec<Record>, OutOfMemory>
    ensures { IfOk result (λ copy. copy.items ≡ items.now) }
{
    let mut copy = Vec::new(alloc);
    for record in items {
        copy.push(record.try_copy(alloc)?)?;
    }
    Ok(copy)
}

/// Where the key is, or where it would go.
fn place_of(items: &[Record], key: &[u8]) -> Result<usize, usize>
    requires { keys_ascend items.now ≡ true }
    ensures found { IfOk result (IsAt items.now key.now) }
    ensures absent { IfErr result (IsGapFor items.now key.now) }
{
    items.binary_search_by(|record| record.key.as_slice().cmp(key))
}
