//! The columns that a clause adds or keeps, each by itself: `unknown_names` puts them behind one another as it goes over the names.

ghost use Rattle.std.specs.Prelude.{◌≡◌, [], ◌∷◌, ◌++◌, IfOk, OnOk};
ghost use Rattle.gql_ast.specs.Meaning.{tree_of};
ghost use Rattle.gql_ast.specs.Outputs.{kind_of, element_kind};
ghost use Rattle.gql_ast.specs.ClauseColumns.{counter_column};
ghost use Rattle.gql_ast.specs.Projections.{output_columns};

use crate::outputs::output_scope;
use gql_ast::{Counting, Expr, For, LetItem, ReturnItems};
use gql_expr_checks::KnownColumns;
use gql_values3::{ColumnKind, Columns, OutOfMemory, Text};
use std::alloc::Global;

/// What a column of the value holds: a bare variable keeps what it holds.
pub fn kind_of(scope: &KnownColumns, expr: &Expr) -> ColumnKind
    ensures { result ≡ kind_of scope.now (tree_of expr.now) }
{
    match expr {
        Expr::Name(name) => scope.kind(name),
        _ => ColumnKind::Plain,
    }
}

/// What an item of a list holds.
pub fn element_kind(kind: ColumnKind) -> ColumnKind
    ensures { result ≡ element_kind kind }
{
    match kind {
        ColumnKind::Nodes => ColumnKind::Node,
        ColumnKind::Edges => ColumnKind::Edge,
        _ => ColumnKind::Plain,
    }
}

/// Adds the column of an item of LET.
pub fn push_let_item(
    alloc: Global,
    scope: &mut KnownColumns,
    item: &LetItem,
) -> Result<(), OutOfMemory>
    ensures { OnOk result (scope.new ≡ scope.old ++ (item.now.name, kind_of scope.old (tree_of item.now.value)) ∷ []) }
{
    let kind = kind_of(scope, &item.value);
    scope.push_copy(alloc, &item.name, kind)
}

/// Adds the column of the item of FOR.
pub fn push_for_item(
    alloc: Global,
    scope: &mut KnownColumns,
    clause: &For,
) -> Result<(), OutOfMemory>
    ensures { OnOk result (scope.new ≡ scope.old ++ (clause.now.name, element_kind (kind_of scope.old (tree_of clause.now.list))) ∷ []) }
{
    let kind = element_kind(kind_of(scope, &clause.list));
    scope.push_copy(alloc, &clause.name, kind)
}

/// Adds the column of FOR's counter, where there is one.
pub fn push_counter(
    alloc: Global,
    scope: &mut KnownColumns,
    counter: &Option<(Counting, Text)>,
) -> Result<(), OutOfMemory>
    ensures { OnOk result (scope.new ≡ scope.old ++ counter_column counter.now) }
{
    match counter {
        None => Ok(()),
        Some((_, name)) => scope.push_copy(alloc, name, ColumnKind::Plain),
    }
}

/// A copy of the columns.
pub fn column_list(alloc: Global, scope: &KnownColumns) -> Result<Columns, OutOfMemory>
    ensures { IfOk result (λ columns. columns ≡ scope.now) }
{
    let columns = scope.columns();
    let mut copy = Columns::new(alloc);
    for i in 0..columns.len() {
        let (name, kind) = &columns[i];
        copy.push((name.try_copy(alloc)?, *kind))?;
    }
    Ok(copy)
}

/// Changes the columns to those that RETURN gives.
pub fn keep_outputs(
    alloc: Global,
    scope: &mut KnownColumns,
    items: &ReturnItems,
) -> Result<(), OutOfMemory>
    ensures { OnOk result (scope.new ≡ output_columns scope.old items.now) }
{
    let outputs = output_scope(alloc, scope, items)?;
    *scope = outputs;
    Ok(())
}
