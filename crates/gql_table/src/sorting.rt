//! ORDER BY.

ghost use Rattle.std.specs.Prelude.{◌≡◌, map, drop, IfOk};
ghost use Rattle.std.specs.declared.cmp.Ordering.TheVariants.{Equal};
ghost use Rattle.gql_values3.specs.Datum.{null};
ghost use Rattle.gql_values3.specs.Meaning.{datum_of};
ghost use Rattle.gql_table.specs.Sorting.{directed_cmp, null_cmp, key_cmp, keys_cmp, first_key, later_keys, sorted_by_keys};

use gql_ast::{NullOrder, SortDirection, SortItem};
use gql_values3::{List, OutOfMemory, Row, Value, total_cmp};
use std::alloc::Global;
use std::cmp::Ordering;

/// Keys, and the row that they are of.
pub type Keyed = (List, Row);

/// The rows in the order of their keys. Equal ones stand as they stood.
pub fn sort_keyed(keyed: Vec<Keyed>, items: &[SortItem]) -> Result<Vec<Keyed>, OutOfMemory>
    ensures { IfOk result (λ sorted. sorted.items ≡ sorted_by_keys items.now keyed.items) }
{
    let mut sorted = keyed;
    sorted.sort_by(|a, b| keys_order(items, &a.0, &b.0))?;
    Ok(sorted)
}

/// The order of two lists of keys: the first key that tells them apart decides.
fn keys_order(items: &[SortItem], a: &List, b: &List) -> Ordering
    ensures { result ≡ keys_cmp items.now a.now b.now }
{
    let (a, b) = (a.as_slice(), b.as_slice());
    let none = Value::Null;
    for i in 0..items.len() {
        let order = key_order(&items[i], value_at(a, i, &none), value_at(b, i, &none));
        if order != Ordering::Equal {
            return order;
        }
    }
    Ordering::Equal
}

/// The value of a place; past the last there is NULL.
pub fn value_at<'a>(values: &'a [Value], place: usize, none: &'a Value) -> &'a Value
    requires { datum_of none.now ≡ null }
    ensures { datum_of result.now ≡ first_key (drop place (map datum_of values.now)) }
{
    match values.get(place) {
        Some(value) => value,
        None => none,
    }
}

/// The order of two keys. NULLS FIRST and NULLS LAST place NULL by itself; else it is the greatest of all.
fn key_order(item: &SortItem, a: &Value, b: &Value) -> Ordering
    ensures { result ≡ key_cmp item.now (datum_of a.now) (datum_of b.now) }
{
    match item.nulls {
        None => directed_order(item.direction, a, b),
        Some(nulls) => {
            if a.is_null() || b.is_null() {
                null_order(nulls, a.is_null(), b.is_null())
            } else {
                directed_order(item.direction, a, b)
            }
        }
    }
}

/// DESC turns the order round.
fn directed_order(direction: SortDirection, a: &Value, b: &Value) -> Ordering
    ensures { result ≡ directed_cmp direction (datum_of a.now) (datum_of b.now) }
{
    match direction {
        SortDirection::Ascending => total_cmp(a, b),
        SortDirection::Descending => total_cmp(a, b).reverse(),
    }
}

fn null_order(nulls: NullOrder, a: bool, b: bool) -> Ordering
    ensures { result ≡ null_cmp nulls a b }
{
    match (a, b, nulls) {
        (true, true, _) => Ordering::Equal,
        (true, false, NullOrder::First) => Ordering::Less,
        (false, _, NullOrder::First) => Ordering::Greater,
        (true, false, NullOrder::Last) => Ordering::Greater,
        (false, _, NullOrder::Last) => Ordering::Less,
    }
}
