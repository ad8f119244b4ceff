//! Which RETURN is grouped.

ghost use Rattle.std.specs.Prelude.{◌≡◌, length, map, not, IfOk};
ghost use Rattle.std.specs.List.{list_any};
ghost use Rattle.gql_ast.specs.Meaning.{tree_of};
ghost use Rattle.gql_ast.specs.Projections.{is_grouped, is_key};

use crate::aggregation::has_row_aggregate;
use crate::blank::blank_row;
use gql_ast::{Return, ReturnItem, ReturnItems};
use gql_values3::{ColumnKind, Columns, OutOfMemory, Text, Value};
use std::alloc::Global;

/// Whether RETURN is grouped: it has GROUP BY, or an item with an aggregate over rows.
pub fn is_grouped_return(
    alloc: Global,
    columns: &Columns,
    clause: &Return,
) -> Result<bool, OutOfMemory>
    ensures { IfOk result (λ grouped. grouped ≡ is_grouped columns.now clause.now) }
{
    match (&clause.grouping, &clause.items) {
        (Some(_), _) => Ok(true),
        (None, ReturnItems::All) => Ok(false),
        (None, ReturnItems::Listed(items)) => {
            let blank = blank_row(alloc, columns.len())?;
            Ok(item_has_one(columns.as_slice(), blank.as_slice(), items.as_slice()))
        }
    }
}

fn item_has_one(columns: &[(Text, ColumnKind)], blank: &[Value], items: &[ReturnItem]) -> bool
    requires { length blank.now ≡ length columns.now }
    ensures { result ≡ list_any (λ e. not (is_key columns.now e)) (map (λ i. tree_of i.value) items.now) }
{
    for i in 0..items.len() {
        let item = &items[i];
        if has_row_aggregate(columns, blank, &item.value) {
            return true;
        }
    }
    false
}
