//! The columns of a table, indexed by their names.

ghost use Rattle.std.specs.Prelude.{◌≡◌, [], ◌∷◌, ◌++◌, option_map, find, slice_get, IfOk};
ghost use Rattle.gql_values3.specs.Texts.{same_text};
ghost use Rattle.gql_eval.specs.Machinery.Noting.{Notes};
ghost use Rattle.gql_eval.specs.Machinery.Places.{place_among, ArePlaces};

use gql_values3::{ColumnKind, Columns, OutOfMemory, Text};
use std::alloc::Global;
use std::collections::HashMap;
use std::marker::Model;

/// The columns of a table with the place of each name, so that a name is found among a thousand as fast as among two.
/// It is seen as the columns.
#[derive(Drop)]
pub struct Heading {
    columns: Columns,
    places: HashMap<String, usize>,
}

impl Model for Heading {
    ghost use Rattle.std.specs.Prelude.{List, ℕ};
    ghost use Rattle.gql_values3.specs.declared.table.ColumnKind.{ColumnKind};
    ghost use Rattle.gql_eval.specs.Machinery.Places.{ArePlaces};

    ghost Value = { List (List ℕ × ColumnKind) };

    ghost view = { λ h. h.columns };

    ghost invariant = { λ h. ArePlaces h.places h.columns };
}

impl Heading {
    /// The heading of these columns.
    pub fn new(alloc: Global, columns: Columns) -> Result<Heading, OutOfMemory>
        ensures { IfOk result (λ heading. heading ≡ columns) }
    {
        let places = places_of(alloc, columns.as_slice())?;
        Ok(Heading { columns, places })
    }

    /// The columns in order.
    pub fn columns(&self) -> &[(Text, ColumnKind)]
        ensures { result.now ≡ self.now }
    {
        self.columns.as_slice()
    }

    /// The place of the first column of a name, from 0.
    pub fn place_of(&self, name: &str) -> Option<usize>
        ensures { result ≡ place_among self.now name.now }
    {
        self.places.get(name).copied()
    }

    /// What the first column of a name holds.
    pub fn kind_of(&self, name: &str) -> Option<ColumnKind>
        ensures { result ≡ option_map (λ c. c.1) (find (λ c. same_text name.now c.0) self.now) }
    {
        match self.place_of(name) {
            Some(place) => kind_there(self.columns.as_slice(), place),
            None => None,
        }
    }

    /// The columns in order.
    pub fn into_columns(self) -> Columns
        ensures { result ≡ self }
    {
        let Heading { columns, .. } = self;
        columns
    }

    /// The heading with one column more, at the end.
    pub fn with(self, alloc: Global, name: &Text, kind: ColumnKind) -> Result<Heading, OutOfMemory>
        ensures { IfOk result (λ more. more ≡ self ++ (name.now, kind) ∷ []) }
    {
        let Heading {
            mut columns,
            places,
        } = self;
        let places = noted(alloc, places, name, columns.len())?;
        columns.push((name.try_copy(alloc)?, kind))?;
        Ok(Heading { columns, places })
    }
}

/// The place of the first column of each name.
fn places_of(
    alloc: Global,
    columns: &[(Text, ColumnKind)],
) -> Result<HashMap<String, usize>, OutOfMemory>
    ensures { IfOk result (λ places. ArePlaces places columns.now) }
{
    let mut places = HashMap::new(alloc);
    // From the last column on, so that the first of a name stays.
    for i in (0..columns.len()).rev() {
        let (name, _) = &columns[i];
        places.insert(String::from_str(alloc, name.as_str())?, i)?;
    }
    Ok(places)
}

/// The map with the place of a name, unless it knows one.
fn noted(
    alloc: Global,
    mut places: HashMap<String, usize>,
    name: &Text,
    place: usize,
) -> Result<HashMap<String, usize>, OutOfMemory>
    ensures { IfOk result (λ more. Notes places more name.now place) }
{
    if places.contains_key(name.as_str()) {
        return Ok(places);
    }
    places.insert(String::from_str(alloc, name.as_str())?, place)?;
    Ok(places)
}

/// What the column of a place holds.
fn kind_there(columns: &[(Text, ColumnKind)], place: usize) -> Option<ColumnKind>
    ensures { result ≡ option_map (λ c. c.1) (slice_get columns.now place) }
{
    columns.get(place).map(|column| column.1)
}
