//! Records in memory, in ascending order of their keys.

ghost use Rattle.std.specs.Prelude.{◌≡◌, ◌≤◌, ◌+◌, ◌++◌, IfOk, is_ok, slice_get, IsPermutation};
ghost use Rattle.gql_values3.specs.Texts.{same_text, texts_differ};
ghost use Rattle.gql_keep_sql.specs.Keys.{keys_of};
ghost use Rattle.gql_keep_sql.specs.Refusals.{SucceedsIff};
ghost use Rattle.std.specs.List.{filter};
ghost use Rattle.std.specs.Vec.{vec_len, vec_capacity};
ghost use Rattle.std.specs.Option.{option_copied};
ghost use Rattle.std.specs.List.Sorted.{IsSortedBy};
ghost use Rattle.gql_keep_sql.specs.Written.{Alters, is_key_below};
ghost use Rattle.gql_keep_sql.specs.Machinery.Merge.{is_kept};

use crate::changes::{Changes, copy_key};
use crate::fault::NOT_A_STORE;
use gql_ports::{Key, Record};
use sqlite::Error;
use std::alloc::{AllocError, Global};
use std::mem;

/// Puts and drops all of these, or changes nothing. All memory is taken before anything changes.
pub fn write(records: &mut Vec<Record>, puts: &[Record], drops: &[Key]) -> Result<(), Error>
    ensures succeeds { SucceedsIff result (texts_differ (keys_of puts.now ++ drops.now)) }
    ensures alters { Alters puts.now drops.now (is_ok result) records.old.items records.new.items }
{
    let alloc = *records.allocator();
    let Some(changes) = Changes::of(alloc, puts, drops)? else {
        return Err(NOT_A_STORE);
    };
    let room = copies(alloc, puts, records.len())?;
    let old = mem::replace(records, room);
    keep(records, old, &changes);
    sort(records);
    Ok(())
}

/// The record at a place.
pub fn at(records: &[Record], index: u64) -> Option<&Record>
    ensures { option_copied result ≡ slice_get records.now index }
{
    records.get(index as usize)
}

/// A copy of the record, which has to have that key.
pub fn copy_of(alloc: Global, key: &Key, held: &Record) -> Result<Record, Error>
    ensures succeeds { SucceedsIff result (same_text held.now.key key.now) }
    ensures key { IfOk result (λ r. r.key ≡ key.now) }
    ensures same { IfOk result (λ r. r ≡ held.now) }
{
    if held.key.as_slice() != key.as_slice() {
        return Err(NOT_A_STORE);
    }
    Ok(copy_record(alloc, held)?)
}

fn copy_record(alloc: Global, held: &Record) -> Result<Record, AllocError>
    ensures { IfOk result (λ copy. copy ≡ held.now) }
{
    Ok(Record {
        key: copy_key(alloc, &held.key)?,
        value: copy_key(alloc, &held.value)?,
    })
}

/// Copies of the records, with room for so many more.
fn copies(alloc: Global, records: &[Record], more: usize) -> Result<Vec<Record>, AllocError>
    ensures items { IfOk result (λ copies. copies.items ≡ records.now) }
    ensures room { IfOk result (λ copies. vec_len copies + more ≤ vec_capacity copies) }
{
    let mut copies = Vec::with_capacity(alloc, records.len().saturating_add(more))?;
    for record in records {
        copies.push(copy_record(alloc, record)?)?;
    }
    copies.reserve(more)?;
    Ok(copies)
}

/// Moves the records that are neither put nor dropped.
fn keep(into: &mut Vec<Record>, old: Vec<Record>, changes: &Changes)
    requires { vec_len into.old + vec_len old ≤ vec_capacity into.old }
    ensures { into.new.items ≡ into.old.items ++ filter (is_kept changes.now) old.items }
{
    for record in old {
        if !changes.names(record.key.as_slice()) {
            into.push_reserved(record);
        }
    }
}

/// Sorts by key: in one go where there are two runs in order, as long as there is memory.
pub fn sort(records: &mut Vec<Record>)
    ensures same { IsPermutation records.old.items records.new.items }
    ensures ordered { IsSortedBy is_key_below records.new.items }
{
    match records.sort_by(|a, b| a.key.as_slice().cmp(b.key.as_slice())) {
        Ok(()) => {}
        Err(_) => records.sort_unstable_by(|a, b| a.key.as_slice().cmp(b.key.as_slice())),
    }
}
