//! Labels and names of properties: whether they are in order, and what is found among them.

ghost use Rattle.std.specs.Prelude.{◌≡◌, map, slice_get};
ghost use Rattle.std.specs.List.{list_any};
ghost use Rattle.std.specs.Option.{option_copied};
ghost use Rattle.gql_values3.specs.Texts.{same_text, texts_ascend};

use gql_values3::{Properties, Text, Value, keys_ascend};

/// Whether the names strictly ascend by bytes.
pub fn names_ascend(names: &[Text]) -> bool
    ensures { result ≡ texts_ascend names.now }
{
    keys_ascend(names)
}

/// Whether the name is among them.
pub fn contains_name(names: &[Text], name: &str) -> bool
    ensures { result ≡ list_any (same_text name.now) names.now }
{
    names.iter().any(|n| name == n.as_str())
}

/// The name of that place, from 0.
pub fn name_of_place(names: &[Text], index: u64) -> Option<&Text>
    ensures { option_copied result ≡ slice_get names.now index }
{
    names.get(usize::try_from(index).ok()?)
}

/// The property name of that place, from 0.
pub fn key_of_place(properties: &Properties, index: u64) -> Option<&Text>
    ensures { option_copied result ≡ slice_get (map (λ p. p.0) properties.now) index }
{
    key_at(properties.as_slice(), index)
}

fn key_at(properties: &[(Text, Value)], index: u64) -> Option<&Text>
    ensures { option_copied result ≡ slice_get (map (λ p. p.0) properties.now) index }
{
    let (name, _) = properties.get(usize::try_from(index).ok()?)?;
    Some(name)
}
