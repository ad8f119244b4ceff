//! What a store is told so that it holds other records.

ghost use Rattle.std.specs.Prelude.{◌≡◌, ◌↔◌, ◌<◌, ◌≤◌, ℕ, false, length, IfOk, IsTrue};
ghost use Rattle.std.specs.Option.{option_copied};
ghost use Rattle.gql_ports.specs.Held.{keys_ascend, value_at};
ghost use Rattle.gql_txn.specs.Machinery.Changes.{same_record, same_records, has_record, has_key, is_below, puts_of, drops_of};

use gql_ports::{Key, Record, Records};
use gql_values3::OutOfMemory;
use std::alloc::Global;
use std::cmp::Ordering;

/// Records that are put, and keys that are dropped.
#[derive(Drop)]
pub struct Changes {
    pub puts: Vec<Record>,
    pub drops: Vec<Key>,
}

/// Whether both are the same records, found without a copy.
pub fn are_same(before: &Records, after: &Records) -> bool
    ensures same { IsTrue result ↔ (after.now ≡ before.now) }
    ensures before { IsTrue (keys_ascend before.now) }
    ensures after { IsTrue (keys_ascend after.now) }
{
    // The lengths' clauses say that the records are in order.
    let (_, _) = (before.len(), after.len());
    same_records(before.as_slice(), after.as_slice())
}

fn same_records(some: &[Record], others: &[Record]) -> bool
    ensures { result ≡ same_records some.now others.now }
{
    if some.len() != others.len() {
        return false;
    }
    for i in 0..some.len() {
        if !same_record(&some[i], &others[i]) {
            return false;
        }
    }
    true
}

fn same_record(a: &Record, b: &Record) -> bool
    ensures { result ≡ same_record a.now b.now }
{
    a.key.as_slice() == b.key.as_slice() && a.value.as_slice() == b.value.as_slice()
}

/// What leads from the one list of records to the other.
pub fn changes_of(alloc: Global, before: &Records, after: &Records) -> Result<Changes, OutOfMemory>
    ensures puts { IfOk result (λ all. all.puts.items ≡ puts_of before.now after.now) }
    ensures drops { IfOk result (λ all. all.drops.items ≡ drops_of before.now after.now) }
    ensures before { IsTrue (keys_ascend before.now) }
    ensures after { IsTrue (keys_ascend after.now) }
{
    // The lengths' clauses say that the records are in order.
    let (_, _) = (before.len(), after.len());
    Ok(Changes {
        puts: puts_of(alloc, before, after)?,
        drops: drops_of(alloc, before, after)?,
    })
}

/// The records that are new or differ.
fn puts_of(alloc: Global, before: &Records, after: &Records) -> Result<Vec<Record>, OutOfMemory>
    ensures { IfOk result (λ puts. puts.items ≡ puts_of before.now after.now) }
{
    let mut puts = Vec::new(alloc);
    let mut near = 0;
    for place in 0..after.len() {
        if let Some(found) = after.get(place) {
            near = place_from(before, near, found.key.as_slice());
            if !has_record(before, near, found) {
                puts.push(found.try_copy(alloc)?)?;
            }
        }
    }
    Ok(puts)
}

/// The keys that are gone.
fn drops_of(alloc: Global, before: &Records, after: &Records) -> Result<Vec<Key>, OutOfMemory>
    ensures { IfOk result (λ drops. drops.items ≡ drops_of before.now after.now) }
{
    let mut drops = Vec::new(alloc);
    let mut near = 0;
    for place in 0..before.len() {
        if let Some(found) = before.get(place) {
            near = place_from(after, near, found.key.as_slice());
            if !has_key(after, near, found) {
                drops.push(found.key.try_copy(alloc)?)?;
            }
        }
    }
    Ok(drops)
}

fn has_record(records: &Records, near: usize, found: &Record) -> bool
    ensures { result ≡ has_record records.now found.now }
{
    match value_near(records, near, found.key.as_slice()) {
        None => false,
        Some(value) => found.value.as_slice() == value,
    }
}

fn has_key(records: &Records, near: usize, found: &Record) -> bool
    ensures { result ≡ has_key records.now found.now }
{
    value_near(records, near, found.key.as_slice()).is_some()
}

/// The value of a key, which is looked for at this place first.
fn value_near<'a>(records: &'a Records, near: usize, key: &[u8]) -> Option<&'a [u8]>
    ensures { option_copied result ≡ value_at records.now key.now }
{
    // The length's clause says that the records are in order.
    let _count = records.len();
    if let Some(record) = records.get(near) {
        if record.key.as_slice() == key {
            return Some(record.value.as_slice());
        }
    }
    records.value_of(key)
}

/// The first place from this one on whose key is not below the given one. Keys that ascend are all found so in one go through both lists.
fn place_from(records: &Records, from: usize, key: &[u8]) -> usize
    ensures below { (place : ℕ) → from ≤ place → place < result → IsTrue (is_below records.now place key.now) }
    ensures stops { is_below records.now result key.now ≡ false }
{
    // There are no more records than numbers.
    let _count = records.len();
    let mut place = from;
    while is_below(records, place, key) {
        place += 1;
    }
    place
}

fn is_below(records: &Records, place: usize, key: &[u8]) -> bool
    ensures exact { result ≡ is_below records.now place key.now }
    ensures within { IsTrue result → place < length records.now }
{
    match records.get(place) {
        None => false,
        Some(record) => match record.key.as_slice().cmp(key) {
            Ordering::Less => true,
            _ => false,
        },
    }
}
