//! The items of SET and REMOVE, prepared once for all rows: places in place of the names of variables, and expressions with
//! their parameters.

ghost use Rattle.std.specs.Prelude.{◌≡◌, map, IfOk};
ghost use Rattle.gql_change.specs.Machinery.PreparedItems.{item_in, removed_in, set_in};

use crate::naming::column_place;
use crate::prepared_property::{PreparedProperty, prepare_property};
use gql_ast::{RemoveItem, SetItem};
use gql_values3::{Columns, OutOfMemory, Params, Text};
use std::alloc::Global;

/// What is done to the element of a row.
#[derive(Drop)]
pub enum PreparedAct<'a> {
    /// The property gets the value of its expression.
    Property(PreparedProperty<'a>),
    /// The property of this name is taken away.
    NoProperty(&'a Text),
    /// The element gets the label.
    Label(&'a Text),
    /// The element loses the label.
    NoLabel(&'a Text),
}

/// An item of SET or REMOVE.
#[derive(Drop)]
pub struct PreparedItem<'a> {
    /// The place of its variable's column; None stands for NULL.
    pub target: Option<usize>,
    pub act: PreparedAct<'a>,
}

/// Prepares the items of SET.
pub fn prepare_sets<'a>(
    alloc: Global,
    columns: &'a Columns,
    params: &'a Params,
    items: &'a [SetItem],
) -> Result<Vec<PreparedItem<'a>>, OutOfMemory>
    ensures { IfOk result (λ all. map item_in all.items ≡ map (set_in columns.now params.now) items.now) }
{
    let mut all = Vec::with_capacity(alloc, items.len())?;
    for i in 0..items.len() {
        let item = &items[i];
        all.push(prepare_set(alloc, columns, params, item)?)?;
    }
    Ok(all)
}

fn prepare_set<'a>(
    alloc: Global,
    columns: &'a Columns,
    params: &'a Params,
    item: &'a SetItem,
) -> Result<PreparedItem<'a>, OutOfMemory>
    ensures { IfOk result (λ p. item_in p ≡ set_in columns.now params.now item.now) }
{
    match item {
        SetItem::Property(variable, name, expr) => {
            let property = prepare_property(alloc, columns.as_slice(), params, name, expr)?;
            Ok(PreparedItem {
                target: column_place(columns.as_slice(), variable.as_str()),
                act: PreparedAct::Property(property),
            })
        }
        SetItem::Label(variable, label) => Ok(PreparedItem {
            target: column_place(columns.as_slice(), variable.as_str()),
            act: PreparedAct::Label(label),
        }),
    }
}

/// Prepares the items of REMOVE.
pub fn prepare_removals<'a>(
    alloc: Global,
    columns: &Columns,
    items: &'a [RemoveItem],
) -> Result<Vec<PreparedItem<'a>>, OutOfMemory>
    ensures { IfOk result (λ all. map item_in all.items ≡ map (removed_in columns.now) items.now) }
{
    let mut all = Vec::with_capacity(alloc, items.len())?;
    for i in 0..items.len() {
        let item = &items[i];
        all.push(prepare_removal(columns, item))?;
    }
    Ok(all)
}

fn prepare_removal<'a>(columns: &Columns, item: &'a RemoveItem) -> PreparedItem<'a>
    ensures { item_in result ≡ removed_in columns.now item.now }
{
    match item {
        RemoveItem::Property(variable, name) => PreparedItem {
            target: column_place(columns.as_slice(), variable.as_str()),
            act: PreparedAct::NoProperty(name),
        },
        RemoveItem::Label(variable, label) => PreparedItem {
            target: column_place(columns.as_slice(), variable.as_str()),
            act: PreparedAct::NoLabel(label),
        },
    }
}
