//! The expressions of the items of a grouped RETURN, prepared once for all rows and groups.

ghost use Rattle.std.specs.Prelude.{◌≡◌, true, map, length, IfOk};
ghost use Rattle.gql_values3.specs.Datum.{boolean};
ghost use Rattle.gql_ast.specs.Tree.{constant};
ghost use Rattle.gql_ast.specs.Meaning.{tree_of};
ghost use Rattle.gql_ast.specs.Projections.{has_none};
ghost use Rattle.gql_table.specs.Machinery.AggregateMeaning.{aggregate_meant};
ghost use Rattle.gql_table.specs.Machinery.Preparations.{prepared_under};
ghost use Rattle.gql_table.specs.Machinery.GroupPlan.{noted_trees, prepared_plan, has_key};
ghost use Rattle.gql_table.specs.Machinery.GroupMeaning.{item_meant};

use crate::group_items::GroupItem;
use crate::prepared::prepare;
use crate::row_aggregates::AggregateRef;
use gql_ast::Expr;
use gql_eval::Prepared;
use gql_values3::{ColumnKind, OutOfMemory, Params, Text};
use std::alloc::Global;
use std::marker::Model;

/// An item of a grouped RETURN, whose expressions are prepared.
#[derive(Drop)]
pub struct PreparedItem<'a> {
    aggregates: &'a [AggregateRef<'a>],
    noted: Vec<Prepared<'a>>,
    whole: Prepared<'a>,
}

impl<'a> Model for PreparedItem<'a> {
    ghost use Rattle.gql_table.specs.Machinery.GroupPlan.{PreparedPlan};

    ghost Value = { PreparedPlan };

    ghost use Rattle.std.specs.Coded.{codes};
    ghost use Rattle.gql_values3.specs.Datum.{coded_datum};
    ghost use Rattle.gql_ast.specs.Machinery.TreeCode.{coded_tree};

    ghost coded = { Prim.hlevel (codes, coded_datum, coded_tree) };

    ghost use Rattle.std.specs.Prelude.{map};
    ghost use Rattle.gql_table.specs.Machinery.AggregateMeaning.{aggregate_meant};

    ghost view = { λ p. record { aggregates = map aggregate_meant p.aggregates.now; noted = p.noted.items; whole = p.whole } };
}

impl<'a> PreparedItem<'a> {
    /// Whether the item is a key.
    pub fn is_key(&self) -> bool
        ensures { result ≡ has_none self.now.aggregates }
    {
        match self.aggregates {
            [] => true,
            [_, ..] => false,
        }
    }

    /// Its aggregates over rows; a key has none.
    pub fn aggregates(&self) -> &[AggregateRef<'a>]
        ensures { map aggregate_meant result.now ≡ self.now.aggregates }
    {
        self.aggregates
    }

    /// How many aggregates over rows it has.
    #[tactic(auto, using(crate::proofs::ReturnLemmas::map_long))]
    pub fn width(&self) -> usize
        ensures { result ≡ length self.now.aggregates }
    {
        self.aggregates.len()
    }

    /// What is evaluated in each row: the key, or the arguments of the aggregates.
    pub fn noted(&self) -> &[Prepared<'a>]
        ensures { result.now ≡ self.now.noted }
    {
        self.noted.as_slice()
    }

    /// What is evaluated in the results of each group.
    pub fn whole(&self) -> &Prepared<'a>
        ensures { result.now ≡ self.now.whole }
    {
        &self.whole
    }
}

/// The items, for rows under these columns. `each_row` is what COUNT(*) takes of a row.
pub fn prepare_group_items<'a, 'b>(
    alloc: Global,
    columns: &'a [(Text, ColumnKind)],
    params: &'a Params,
    each_row: &'a Expr,
    items: &'a [GroupItem<'b>],
) -> Result<Vec<PreparedItem<'a>>, OutOfMemory>
    requires { tree_of each_row.now ≡ constant (boolean true) }
    ensures { IfOk result (λ all. all.items ≡ map (prepared_plan columns.now params.now) (map item_meant items.now)) }
{
    let mut all = Vec::new(alloc);
    for i in 0..items.len() {
        let item = prepare_item(alloc, columns, params, each_row, &items[i])?;
        all.push(item)?;
    }
    Ok(all)
}

fn prepare_item<'a, 'b>(
    alloc: Global,
    columns: &'a [(Text, ColumnKind)],
    params: &'a Params,
    each_row: &'a Expr,
    item: &'a GroupItem<'b>,
) -> Result<PreparedItem<'a>, OutOfMemory>
    requires { tree_of each_row.now ≡ constant (boolean true) }
    ensures { IfOk result (λ made. made ≡ prepared_plan columns.now params.now (item_meant item.now)) }
{
    let noted = prepare_noted(alloc, columns, params, each_row, item)?;
    let whole = prepare(alloc, item.names.as_slice(), params, &item.whole)?;
    Ok(PreparedItem {
        aggregates: item.aggregates.as_slice(),
        noted,
        whole,
    })
}

/// What is evaluated of the item in each row.
fn prepare_noted<'a, 'b>(
    alloc: Global,
    columns: &'a [(Text, ColumnKind)],
    params: &'a Params,
    each_row: &'a Expr,
    item: &'a GroupItem<'b>,
) -> Result<Vec<Prepared<'a>>, OutOfMemory>
    requires { tree_of each_row.now ≡ constant (boolean true) }
    ensures { IfOk result (λ noted. noted.items ≡ map (prepared_under columns.now params.now) (noted_trees (item_meant item.now))) }
{
    if item.is_key() {
        let key = prepare(alloc, columns, params, item.expr)?;
        let mut noted = Vec::new(alloc);
        noted.push(key)?;
        Ok(noted)
    } else {
        prepare_arguments(alloc, columns, params, each_row, item.aggregates.as_slice())
    }
}

fn prepare_arguments<'a>(
    alloc: Global,
    columns: &'a [(Text, ColumnKind)],
    params: &'a Params,
    each_row: &'a Expr,
    aggregates: &[AggregateRef<'a>],
) -> Result<Vec<Prepared<'a>>, OutOfMemory>
    requires { tree_of each_row.now ≡ constant (boolean true) }
    ensures { IfOk result (λ noted. noted.items ≡ map (prepared_under columns.now params.now) (map (λ a. a.argument) (map aggregate_meant aggregates.now))) }
{
    let mut noted = Vec::new(alloc);
    for i in 0..aggregates.len() {
        let argument = argument_of(aggregates[i], each_row);
        noted.push(prepare(alloc, columns, params, argument)?)?;
    }
    Ok(noted)
}

/// What the aggregate takes of a row. COUNT(*) takes a value that each row has.
fn argument_of<'a>(aggregate: AggregateRef<'a>, each_row: &'a Expr) -> &'a Expr
    requires { tree_of each_row.now ≡ constant (boolean true) }
    ensures { tree_of result.now ≡ (aggregate_meant aggregate.entry).argument }
{
    match aggregate.argument {
        Some(expr) => expr,
        None => each_row,
    }
}

/// Whether one of the items is a key.
pub fn any_key(items: &[PreparedItem]) -> bool
    ensures { result ≡ has_key items.now }
{
    for i in 0..items.len() {
        if items[i].is_key() {
            return true;
        }
    }
    false
}
