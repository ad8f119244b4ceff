//! Lists of what has a number, by ascending number: an item found, taken out, put in, or put in the place of another.

ghost use Rattle.std.specs.Prelude.{◌≡◌, ◌<◌, ◌==◌, true, find, is_some, vec_len, vec_capacity};
ghost use Rattle.std.specs.Option.{option_copied};
ghost use Rattle.gql_graph.specs.Machinery.Ascending.{AscendsBy, AscendsTo};
ghost use Rattle.gql_graph.specs.Edits.{put_in, taken_out, put_over};
ghost use Rattle.gql_graph.specs.Machinery.AfterChange.{place_of};

use crate::numbers::Numbered;
use std::mem;

/// The item of that number, by binary search.
pub fn find_numbered<T: Numbered>(items: &[T], number: u32) -> Option<&T>
    requires { AscendsBy T.number_of items.now }
    ensures { option_copied result ≡ find (λ r. T.number_of r == number) items.now }
{
    match items.binary_search_by_key(&number, |r| r.number()) {
        Ok(at) => items.get(at),
        Err(_) => None,
    }
}

/// Takes the item of that number out of the list.
pub fn take_numbered<T: Numbered>(items: &mut Vec<T>, number: u32) -> T
    requires ascending { AscendsTo T.number_of items.old.items }
    requires there { is_some (find (λ r. T.number_of r == number) items.old.items) ≡ true }
    ensures items { items.new.items ≡ taken_out T.number_of number items.old.items }
    ensures taken { find (λ r. T.number_of r == number) items.old.items ≡ Some result }
    ensures room { vec_capacity items.new ≡ vec_capacity items.old }
{
    let at = number_place(items.as_slice(), number);
    items.remove(at)
}

/// Puts the item into the list at the place of its number, for which there is room.
pub fn put_numbered<T: Numbered>(items: &mut Vec<T>, item: T)
    requires ascending { AscendsTo T.number_of items.old.items }
    requires absent { find (λ r. T.number_of r == T.number_of item) items.old.items ≡ None }
    requires room { vec_len items.old < vec_capacity items.old }
    ensures items { items.new.items ≡ put_in T.number_of item items.old.items }
    ensures room { vec_capacity items.new ≡ vec_capacity items.old }
{
    let at = number_place(items.as_slice(), item.number());
    // There is room, so the item is never given back.
    let _inserted = items.insert(at, item);
}

/// Puts the item in the place of the one of its number, which it answers.
pub fn swap_numbered<T: Numbered>(items: &mut Vec<T>, item: T) -> T
    requires ascending { AscendsTo T.number_of items.old.items }
    requires there { is_some (find (λ r. T.number_of r == T.number_of item) items.old.items) ≡ true }
    ensures items { items.new.items ≡ put_over T.number_of item items.old.items }
    ensures taken { find (λ r. T.number_of r == T.number_of item) items.old.items ≡ Some result }
    ensures room { vec_capacity items.new ≡ vec_capacity items.old }
{
    let at = number_place(items.as_slice(), item.number());
    mem::replace(&mut items[at], item)
}

fn number_place<T: Numbered>(items: &[T], number: u32) -> usize
    requires { AscendsTo T.number_of items.now }
    ensures { result ≡ place_of T.number_of number items.now }
{
    match items.binary_search_by_key(&number, |r| r.number()) {
        Ok(at) => at,
        Err(at) => at,
    }
}
