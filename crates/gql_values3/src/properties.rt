//! The properties of an element, and the value of one of them by its name.

ghost use Rattle.std.specs.Prelude.{◌≡◌, [], option_map, map, find, length};
ghost use Rattle.std.specs.Option.{option_copied};
ghost use Rattle.gql_values3.specs.Meaning.{datum_of};
ghost use Rattle.gql_values3.specs.Texts.{same_text};

use crate::text::Text;
use crate::value::Value;
use std::alloc::Global;
use std::marker::Model;

/// The properties of an element, seen as pairs of a name and a datum. In a graph the names strictly ascend by bytes.
#[derive(Debug, Drop)]
pub struct Properties {
    items: Vec<(Text, Value)>,
}

impl Model for Properties {
    ghost use Rattle.std.specs.Prelude.{List, ℕ, map};
    ghost use Rattle.std.specs.Coded.{coded_list, coded×, coded_ℕ};
    ghost use Rattle.gql_values3.specs.Datum.{Datum, coded_datum};

    ghost Value = { List (List ℕ × Datum) };

    ghost coded = { coded_list (coded× (coded_list coded_ℕ) coded_datum) };

    ghost use Rattle.gql_values3.specs.Meaning.{datum_of};

    ghost view = { λ p. map (λ q. (q.0, datum_of q.1)) p.items.items };
}

impl Properties {
    pub fn new(alloc: Global) -> Properties
        ensures { result ≡ [] }
    {
        Properties {
            items: Vec::new(alloc),
        }
    }

    pub fn from_vec(items: Vec<(Text, Value)>) -> Properties
        ensures { result ≡ map (λ p. (p.0, datum_of p.1)) items.items }
    {
        Properties { items }
    }

    pub fn into_vec(self) -> Vec<(Text, Value)>
        ensures { map (λ p. (p.0, datum_of p.1)) result.items ≡ self }
    {
        let Properties { items } = self;
        items
    }

    pub fn len(&self) -> usize
        ensures { result ≡ length self.now }
    {
        self.items.len()
    }

    pub fn as_slice(&self) -> &[(Text, Value)]
        ensures { map (λ p. (p.0, datum_of p.1)) result.now ≡ self.now }
    {
        self.items.as_slice()
    }

    /// The value of a name, or None where it has none.
    pub fn get(&self, name: &str) -> Option<&Value>
        ensures { option_map datum_of (option_copied result) ≡ option_map (λ p. p.1) (find (λ p. same_text name.now p.0) self.now) }
    {
        value_of(self.items.as_slice(), name)
    }
}

fn value_of<'a>(items: &'a [(Text, Value)], name: &str) -> Option<&'a Value>
    ensures { option_copied result ≡ option_map (λ p. p.1) (find (λ p. same_text name.now p.0) items.now) }
{
    items.iter().find(|p| name == p.0.as_str()).map(|p| &p.1)
}
