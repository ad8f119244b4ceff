//! What is prepared of the items of a grouped RETURN.

ghost use Rattle.std.specs.Prelude.{◌≡◌, length, map, IfOk};
ghost use Rattle.gql_ast.specs.Meaning.{tree_of};
ghost use Rattle.gql_ast.specs.Projections.{has_none};
ghost use Rattle.gql_table.specs.Machinery.GroupPlan.{names_from, planned};
ghost use Rattle.gql_table.specs.Machinery.GroupMeaning.{item_meant};

use crate::around::around;
use crate::blank::blank_row;
use crate::row_aggregates::{AggregateRef, list_aggregates};
use gql_ast::{Expr, push_number};
use gql_values3::{ColumnKind, Columns, OutOfMemory, Text, Value};
use std::alloc::Global;

/// An item of a grouped RETURN.
#[derive(Drop)]
pub struct GroupItem<'a> {
    /// The item as it is written.
    pub expr: &'a Expr,
    /// Its aggregates over rows; a key has none.
    pub aggregates: Vec<AggregateRef<'a>>,
    /// The names of their results.
    pub names: Columns,
    /// The expression around their results.
    pub whole: Expr,
}

impl<'a> GroupItem<'a> {
    /// Whether the item is a key.
    pub fn is_key(&self) -> bool
        ensures { result ≡ has_none (item_meant self.now).aggregates }
    {
        match self.aggregates.as_slice() {
            [] => true,
            [_, ..] => false,
        }
    }
}

/// The items of these expressions.
pub fn group_items<'a>(
    alloc: Global,
    columns: &Columns,
    exprs: &[&'a Expr],
) -> Result<Vec<GroupItem<'a>>, OutOfMemory>
    ensures { IfOk result (λ items. map item_meant items.items ≡ map (planned columns.now) (map (λ e. tree_of e.now) exprs.now)) }
{
    let blank = blank_row(alloc, columns.len())?;
    let mut items = Vec::new(alloc);
    for i in 0..exprs.len() {
        let item = group_item(alloc, columns.as_slice(), blank.as_slice(), exprs[i])?;
        items.push(item)?;
    }
    Ok(items)
}

fn group_item<'a>(
    alloc: Global,
    columns: &[(Text, ColumnKind)],
    blank: &[Value],
    expr: &'a Expr,
) -> Result<GroupItem<'a>, OutOfMemory>
    requires { length blank.now ≡ length columns.now }
    ensures { IfOk result (λ item. item_meant item ≡ planned columns.now (tree_of expr.now)) }
{
    let aggregates = list_aggregates(alloc, columns, blank, expr)?;
    let names = result_names(alloc, aggregates.len())?;
    let whole = around(alloc, columns, blank, expr)?;
    Ok(GroupItem {
        expr,
        aggregates,
        names,
        whole,
    })
}

/// The names of so many results.
fn result_names(alloc: Global, count: usize) -> Result<Columns, OutOfMemory>
    ensures { IfOk result (λ names. names ≡ names_from 0 count) }
{
    let mut names = Columns::new(alloc);
    for i in 0..count {
        let mut name = Text::new(alloc);
        push_number(&mut name, i as u64)?;
        names.push((name, ColumnKind::Plain))?;
    }
    Ok(names)
}
