//! Lists of what has a name, by ascending name.

ghost use Rattle.std.specs.Prelude.{◌≡◌, ◌≤◌, OnOk, OnErr, length, position};
ghost use Rattle.std.specs.Option.{option_copied};
ghost use Rattle.std.specs.List.{position_or_len};
ghost use Rattle.gql_graph.specs.Catalog.{named, is_before, put_named, without_named};

use gql_values3::{OutOfMemory, Text};

/// What stands under the name.
pub fn find_named<'a, T>(items: &'a [(Text, T)], name: &str) -> Option<&'a T>
    ensures { option_copied result ≡ named name.now items.now }
{
    items
        .iter()
        .find(|item| name == item.0.as_str())
        .map(|item| &item.1)
}

/// Puts the item before the first of a greater name.
pub fn put_named<T: Drop>(
    items: &mut Vec<(Text, T)>,
    name: Text,
    item: T,
) -> Result<(), OutOfMemory>
    ensures ok { OnOk result (items.new.items ≡ put_named name item items.old.items) }
    ensures err { OnErr result (items.new.items ≡ items.old.items) }
{
    let place = place_for(items.as_slice(), name.as_str());
    items.insert(place, (name, item))?;
    Ok(())
}

/// Takes away what stands under the name, if something does.
pub fn take_named<T: Drop>(items: &mut Vec<(Text, T)>, name: &str)
    ensures { items.new.items ≡ without_named name.now items.old.items }
{
    items.retain(|item| name != item.0.as_str());
}

/// The place before the first greater name, or that behind all.
fn place_for<T>(items: &[(Text, T)], name: &str) -> usize
    ensures place { result ≡ position_or_len (λ i. is_before name.now i.0) items.now }
    ensures within { result ≤ length items.now }
{
    match first_greater(items, name) {
        Some(place) => place,
        None => items.len(),
    }
}

fn first_greater<T>(items: &[(Text, T)], name: &str) -> Option<usize>
    ensures { result ≡ position (λ i. is_before name.now i.0) items.now }
{
    items.iter().position(|item| name < item.0.as_str())
}
