//! The keys of a store in ascending order, and how changes merge into them.

ghost use Rattle.std.specs.Prelude.{◌≡◌, ◌≤◌, ◌+◌, ◌++◌, ℕ, List, [], Option, Some, None, length, true, if◌then◌else◌, slice_get, reverse, IfOk};
ghost use Rattle.std.specs.Vec.{vec_len, vec_capacity};
ghost use Rattle.std.specs.Option.{option_copied};
ghost use Rattle.gql_values3.specs.Texts.{texts_ascend};
ghost use Rattle.gql_ports.specs.Held.{keys_ascend};
ghost use Rattle.gql_keep_sql.specs.Keys.{has_key, keys_of};
ghost use Rattle.gql_keep_sql.specs.Machinery.Merge.{stands_under, merged, below, above};

use crate::changes::{Change, Changes, copy_key};
use gql_ports::{Key, Record};
use gql_values3::keys_ascend;
use std::alloc::{AllocError, Global};
use std::cmp::Ordering;
use std::marker::Model;
use std::mem;

/// The keys of a store's records, strictly ascending by bytes, seen as their list.
#[derive(Debug, Drop)]
pub struct Keys {
    items: Vec<Key>,
}

impl Model for Keys {
    ghost use Rattle.std.specs.Prelude.{◌≡◌, ℕ, List, true};
    ghost use Rattle.gql_values3.specs.Texts.{texts_ascend};

    ghost Value = { List (List ℕ) };

    ghost view = { λ k. k.items.items };

    ghost invariant = { λ k. texts_ascend k.items.items ≡ true };
}

impl Keys {
    pub fn new(alloc: Global) -> Keys
        ensures { result ≡ [] }
    {
        Keys {
            items: Vec::new(alloc),
        }
    }

    /// Copies of the records' keys, or None where they do not strictly ascend by bytes.
    pub fn of(alloc: Global, records: &[Record]) -> Result<Option<Keys>, AllocError>
        ensures { IfOk result (λ o. o ≡ (if keys_ascend records.now then Some (keys_of records.now) else None)) }
    {
        if !keys_ascend(records) {
            return Ok(None);
        }
        Ok(Some(Keys {
            items: copies(alloc, records)?,
        }))
    }

    pub fn len(&self) -> usize
        ensures count { result ≡ length self.now }
        ensures ascending { texts_ascend self.now ≡ true }
    {
        self.items.len()
    }

    /// The key of that place, from 0.
    pub fn get(&self, index: usize) -> Option<&Key>
        ensures { option_copied result ≡ slice_get self.now index }
    {
        self.items.get(index)
    }

    /// An empty list with room for these keys and those of the changes.
    pub fn room_for(&self, alloc: Global, changes: &Changes) -> Result<Vec<Key>, AllocError>
        ensures empty { IfOk result (λ room. room.items ≡ []) }
        ensures room { IfOk result (λ room. length self.now + length changes.now ≤ vec_capacity room) }
    {
        let Some(most) = self.items.len().checked_add(changes.len()) else {
            return Err(AllocError);
        };
        Vec::with_capacity(alloc, most)
    }

    /// Puts and drops these keys. It takes no memory: the keys move to `room`.
    pub fn change(&mut self, changes: Changes, room: Vec<Key>)
        requires empty { room.items ≡ [] }
        requires room { length self.old + length changes ≤ vec_capacity room }
        ensures { (key : List ℕ) → has_key self.new key ≡ stands_under changes key (has_key self.old key) }
    {
        let old = mem::replace(&mut self.items, room);
        merge(&mut self.items, old, changes.into_vec());
    }
}

fn copies(alloc: Global, records: &[Record]) -> Result<Vec<Key>, AllocError>
    ensures { IfOk result (λ keys. keys.items ≡ keys_of records.now) }
{
    let mut keys = Vec::with_capacity(alloc, records.len())?;
    for record in records {
        keys.push(copy_key(alloc, &record.key)?)?;
    }
    Ok(keys)
}

/// Moves the keys to `into`, put and dropped as the changes say, in one go over both lists.
fn merge(into: &mut Vec<Key>, mut old: Vec<Key>, changes: Vec<Change>)
    requires empty { into.old.items ≡ [] }
    requires room { vec_len old + vec_len changes ≤ vec_capacity into.old }
    ensures { into.new.items ≡ merged old.items changes.items }
{
    // The least key is the last one then, which can be taken away.
    old.reverse();
    for change in changes {
        pass(into, &mut old, &change.key);
        if change.is_put {
            into.push_reserved(change.key);
        }
    }
    move_all(into, old);
}

/// Moves the keys below a key on, and lets that key go. The keys ahead stand in reverse.
fn pass(into: &mut Vec<Key>, ahead: &mut Vec<Key>, at: &Key)
    requires { vec_len into.old + vec_len ahead.old ≤ vec_capacity into.old }
    ensures moved { into.new.items ≡ into.old.items ++ below at.now (reverse ahead.old.items) }
    ensures ahead { reverse ahead.new.items ≡ above at.now (reverse ahead.old.items) }
    ensures counted { vec_len into.new + vec_len ahead.new ≤ vec_len into.old + vec_len ahead.old }
    ensures capacity { vec_capacity into.new ≡ vec_capacity into.old }
{
    while let Some(key) = ahead.pop() {
        match key.as_slice().cmp(at.as_slice()) {
            Ordering::Less => into.push_reserved(key),
            Ordering::Equal => return,
            Ordering::Greater => {
                ahead.push_reserved(key);
                return;
            }
        }
    }
}

fn move_all(into: &mut Vec<Key>, mut ahead: Vec<Key>)
    requires { vec_len into.old + vec_len ahead ≤ vec_capacity into.old }
    ensures { into.new.items ≡ into.old.items ++ reverse ahead.items }
{
    while let Some(key) = ahead.pop() {
        into.push_reserved(key);
    }
}
