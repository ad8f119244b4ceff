//! The elements that a deletion names.

ghost use Rattle.std.specs.Prelude.{◌≡◌, ◌++◌, map, IfOk, OnOk};
ghost use Rattle.std.specs.List.{flat_map};
ghost use Rattle.std.specs.Option.{option_to_list};
ghost use Rattle.gql_values3.specs.Meaning.{datum_of};
ghost use Rattle.gql_change.specs.Deletion.{named_elements};
ghost use Rattle.gql_change.specs.Machinery.DeletionSteps.{column_place, elements_at, row_elements};

use gql_values3::{ColumnKind, Columns, Elem, OutOfMemory, Row, Rows, Text, Value};
use std::alloc::Global;

/// The named elements of all rows, row by row. NULL names none. A name is sought among the columns once.
pub fn named_elements(
    alloc: Global,
    columns: &Columns,
    rows: &Rows,
    names: &[Text],
) -> Result<Vec<Elem>, OutOfMemory>
    ensures { IfOk result (λ elems. elems.items ≡ named_elements columns.now names.now rows.now) }
{
    let places = column_places(alloc, columns.as_slice(), names)?;
    elements_at_places(alloc, &places, rows.as_slice())
}

/// The place of each name.
fn column_places(
    alloc: Global,
    columns: &[(Text, ColumnKind)],
    names: &[Text],
) -> Result<Vec<Option<usize>>, OutOfMemory>
    ensures { IfOk result (λ places. places.items ≡ map (column_place columns.now) names.now) }
{
    let mut places = Vec::new(alloc);
    for name in names {
        places.push(column_place(columns, name.as_str()))?;
    }
    Ok(places)
}

/// The place of the first column of a name, from 0.
pub fn column_place(columns: &[(Text, ColumnKind)], name: &str) -> Option<usize>
    ensures { result ≡ column_place columns.now name.now }
{
    columns.iter().position(|c| name == c.0.as_str())
}

fn elements_at_places(
    alloc: Global,
    places: &[Option<usize>],
    rows: &[Row],
) -> Result<Vec<Elem>, OutOfMemory>
    ensures { IfOk result (λ elems. elems.items ≡ flat_map (row_elements places.now) rows.now) }
{
    let mut elems = Vec::new(alloc);
    for row in rows {
        add_row(&mut elems, places, row.as_slice())?;
    }
    Ok(elems)
}

/// Adds the elements of a row at these places.
fn add_row(
    elems: &mut Vec<Elem>,
    places: &[Option<usize>],
    row: &[Value],
) -> Result<(), OutOfMemory>
    ensures { OnOk result (elems.new.items ≡ elems.old.items ++ row_elements places.now (map datum_of row.now)) }
{
    for i in 0..places.len() {
        add_element(elems, element_at(row, places[i]))?;
    }
    Ok(())
}

fn add_element(elems: &mut Vec<Elem>, elem: Option<Elem>) -> Result<(), OutOfMemory>
    ensures { OnOk result (elems.new.items ≡ elems.old.items ++ option_to_list elem) }
{
    if let Some(elem) = elem {
        elems.push(elem)?;
    }
    Ok(())
}

/// The element that a row has at a place.
fn element_at(row: &[Value], place: Option<usize>) -> Option<Elem>
    ensures { option_to_list result ≡ elements_at (map datum_of row.now) place }
{
    match row.get(place?) {
        Some(Value::Node(node)) => Some(Elem::Node(*node)),
        Some(Value::Edge(edge)) => Some(Elem::Edge(*edge)),
        _ => None,
    }
}
