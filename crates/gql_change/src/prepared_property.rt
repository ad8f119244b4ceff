//! A property that a clause gives, with its expression prepared once for all rows.

ghost use Rattle.std.specs.Prelude.{◌≡◌, IfOk};
ghost use Rattle.gql_values3.specs.Meaning.{datum_of};
ghost use Rattle.gql_eval.specs.Gives.{Gives};
ghost use Rattle.gql_change.specs.Machinery.InRow.{named_preparation, value_in};

use gql_ast::Expr;
use gql_eval::{EvalError, Prepared};
use gql_values3::{ColumnKind, OutOfMemory, Params, Row, Text, Value, View};
use std::alloc::Global;
use std::marker::Model;

/// A property's name, and the expression whose value it gets.
#[derive(Drop)]
pub struct PreparedProperty<'a> {
    pub name: &'a Text,
    pub value: Prepared<'a>,
}

impl<'a> Model for PreparedProperty<'a> {
    ghost use Rattle.gql_change.specs.Machinery.InRow.{NamedPreparation};

    ghost Value = { NamedPreparation };

    ghost use Rattle.std.specs.Coded.{codes};
    ghost use Rattle.gql_values3.specs.Datum.{coded_datum};
    ghost use Rattle.gql_ast.specs.Machinery.TreeCode.{coded_tree};

    ghost coded = { Prim.hlevel (codes, coded_datum, coded_tree) };

    ghost view = { λ p. record { name = p.name.now; value = p.value } };
}

/// Prepares a property and its expression for the rows under some columns.
pub fn prepare_property<'a>(
    alloc: Global,
    columns: &'a [(Text, ColumnKind)],
    params: &'a Params,
    name: &'a Text,
    expr: &'a Expr,
) -> Result<PreparedProperty<'a>, OutOfMemory>
    ensures { IfOk result (λ p. p ≡ named_preparation columns.now params.now name.now expr.now) }
{
    let value = Prepared::new(alloc, columns, params, expr)?;
    Ok(PreparedProperty { name, value })
}

/// The value of the property's expression in a row.
pub fn value_in<V: View>(
    alloc: Global,
    view: &V,
    row: &Row,
    property: &PreparedProperty,
) -> Result<Value, EvalError>
    ensures { Gives datum_of result (value_in property.now.value (V.graph view.now) row.now) }
{
    let held = property.value.value(alloc, view, row.as_slice())?;
    Ok(held.into_value(alloc)?)
}
