//! Which keys are put and which are dropped, in ascending order.

ghost use Rattle.std.specs.Prelude.{◌≡◌, ℕ, List, Option, Some, None, is_some, length, map, IfOk, OnOk, ◌++◌, ◌||◌, true, if◌then◌else◌, IfSome};
ghost use Rattle.gql_values3.specs.Texts.{texts_differ};
ghost use Rattle.gql_keep_sql.specs.Keys.{has_key, keys_of};
ghost use Rattle.gql_keep_sql.specs.Machinery.Merge.{put_of, drop_of, changes_ascend, is_put_in, is_changed_in};

use gql_ports::{Key, Record};
use gql_values3::{Bytes, Keyed, keys_ascend};
use std::alloc::{AllocError, Global};
use std::marker::Model;

/// A key that is put or dropped.
#[derive(Debug, Drop)]
pub struct Change {
    pub key: Key,
    pub is_put: bool,
}

impl Keyed for Change {
    ghost key_bytes = { λ c. c.key };

    fn key(&self) -> &[u8] {
        self.key.as_slice()
    }
}

/// Changes whose keys strictly ascend by bytes, seen as their list.
#[derive(Debug, Drop)]
pub struct Changes {
    items: Vec<Change>,
}

impl Model for Changes {
    ghost use Rattle.std.specs.Prelude.{◌≡◌, List, true};
    ghost use Rattle.gql_keep_sql.specs.declared.changes.Change.{Change};
    ghost use Rattle.gql_keep_sql.specs.Machinery.Merge.{changes_ascend};

    ghost Value = { List Change };

    ghost view = { λ c. c.items.items };

    ghost invariant = { λ c. changes_ascend c.items.items ≡ true };
}

impl Changes {
    /// What these puts and drops change, or None where a key stands twice among them.
    pub fn of(alloc: Global, puts: &[Record], drops: &[Key]) -> Result<Option<Changes>, AllocError>
        ensures differ { IfOk result (λ o. is_some o ≡ texts_differ (keys_of puts.now ++ drops.now)) }
        ensures put { IfOk result (λ o. IfSome o (λ changes. (key : List ℕ) → is_put_in changes key ≡ has_key (keys_of puts.now) key)) }
        ensures changed { IfOk result (λ o. IfSome o (λ changes. (key : List ℕ) → is_changed_in changes key ≡ (has_key (keys_of puts.now) key || has_key drops.now key))) }
    {
        let mut items = Vec::with_capacity(alloc, puts.len().saturating_add(drops.len()))?;
        push_puts(alloc, &mut items, puts)?;
        push_drops(alloc, &mut items, drops)?;
        items.sort_by(|a, b| a.key.as_slice().cmp(b.key.as_slice()))?;
        Ok(ascending(items))
    }

    pub fn len(&self) -> usize
        ensures count { result ≡ length self.now }
        ensures ascending { changes_ascend self.now ≡ true }
    {
        self.items.len()
    }

    /// Whether the key is put or dropped.
    pub fn names(&self, key: &[u8]) -> bool
        ensures { result ≡ is_changed_in self.now key.now }
    {
        has_change(self.items.as_slice(), key)
    }

    pub fn into_vec(self) -> Vec<Change>
        ensures items { result.items ≡ self }
        ensures ascending { changes_ascend result.items ≡ true }
    {
        let Changes { items } = self;
        items
    }
}

fn has_change(items: &[Change], key: &[u8]) -> bool
    requires { changes_ascend items.now ≡ true }
    ensures { result ≡ is_changed_in items.now key.now }
{
    let found = items.binary_search_by(|change| change.key.as_slice().cmp(key));
    found.is_ok()
}

fn ascending(items: Vec<Change>) -> Option<Changes>
    ensures { result ≡ (if changes_ascend items.items then Some items.items else None) }
{
    if keys_ascend(items.as_slice()) {
        Some(Changes { items })
    } else {
        None
    }
}

fn push_puts(alloc: Global, items: &mut Vec<Change>, puts: &[Record]) -> Result<(), AllocError>
    ensures { OnOk result (items.new.items ≡ items.old.items ++ map put_of puts.now) }
{
    for record in puts {
        items.push(Change {
            key: copy_key(alloc, &record.key)?,
            is_put: true,
        })?;
    }
    Ok(())
}

fn push_drops(alloc: Global, items: &mut Vec<Change>, drops: &[Key]) -> Result<(), AllocError>
    ensures { OnOk result (items.new.items ≡ items.old.items ++ map drop_of drops.now) }
{
    for key in drops {
        items.push(Change {
            key: copy_key(alloc, key)?,
            is_put: false,
        })?;
    }
    Ok(())
}

pub fn copy_key(alloc: Global, key: &Key) -> Result<Key, AllocError>
    ensures { IfOk result (λ copy. copy ≡ key.now) }
{
    Ok(Bytes::from_vec(Vec::from_slice(alloc, key.as_slice())?))
}
