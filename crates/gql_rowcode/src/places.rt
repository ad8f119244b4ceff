//! What stands under a name among types or graphs in the order of their records.

ghost use Rattle.std.specs.Prelude.{◌≡◌, position};
ghost use Rattle.std.specs.Option.{option_copied};
ghost use Rattle.gql_values3.specs.Texts.{same_text};
ghost use Rattle.gql_graph.specs.Catalog.{named};
ghost use Rattle.gql_rowcode.specs.Machinery.KeyOrder.{key_cmp, AreListed};

use gql_graph::GraphType;
use gql_values3::Text;
use std::cmp::Ordering;

/// The place of the name, by binary search.
pub fn place_of<T>(items: &[(Text, T)], name: &str) -> Option<usize>
    requires { AreListed items.now }
    ensures { result ≡ position (λ i. same_text name.now i.0) items.now }
{
    match items.binary_search_by(|item| key_order(item.0.as_str(), name)) {
        Ok(place) => Some(place),
        Err(_) => None,
    }
}

/// How names compare in keys: by length, and then by bytes.
fn key_order(a: &str, b: &str) -> Ordering
    ensures { result ≡ key_cmp a.now b.now }
{
    match a.len().cmp(&b.len()) {
        Ordering::Less => Ordering::Less,
        Ordering::Equal => a.cmp(b),
        Ordering::Greater => Ordering::Greater,
    }
}

/// The type of that name.
pub fn type_named<'a>(types: &'a [(Text, GraphType)], name: &str) -> Option<&'a GraphType>
    requires { AreListed types.now }
    ensures { option_copied result ≡ named name.now types.now }
{
    match place_of(types, name) {
        Some(place) => Some(&types[place].1),
        None => None,
    }
}
