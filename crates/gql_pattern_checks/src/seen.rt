//! The columns that an expression names, so that it is asked under those alone.

ghost use Rattle.std.specs.Prelude.{◌≡◌, ◌++◌, IfOk, OnOk};
ghost use Rattle.gql_ast.specs.Meaning.{tree_of};
ghost use Rattle.gql_ast.specs.Scope.{names_in};
ghost use Rattle.gql_expr_checks.specs.Machinery.Knowing.{first_kind};
ghost use Rattle.gql_pattern_checks.specs.Machinery.Scopes.{known_columns};
ghost use Rattle.gql_pattern_checks.specs.Machinery.SeenColumns.{column_if, seen_columns};

use crate::scope::Names;
use gql_ast::Expr;
use gql_expr_checks::{KnownColumns, names_in};
use gql_values3::{OutOfMemory, Text};
use std::alloc::Global;

/// The columns that an expression names, of the incoming ones and of the names beside them.
pub fn seen_columns(
    alloc: Global,
    columns: &KnownColumns,
    names: &Names,
    expr: &Expr,
) -> Result<KnownColumns, OutOfMemory>
    ensures { IfOk result (λ seen. seen ≡ seen_columns (known_columns columns.now names.now) (names_in (tree_of expr.now))) }
{
    let asked = names_in(alloc, expr)?;
    columns_of(alloc, columns, names, asked.as_slice())
}

fn columns_of(
    alloc: Global,
    columns: &KnownColumns,
    names: &Names,
    asked: &[Text],
) -> Result<KnownColumns, OutOfMemory>
    ensures { IfOk result (λ seen. seen ≡ seen_columns (known_columns columns.now names.now) asked.now) }
{
    let mut seen = KnownColumns::new(alloc);
    for i in 0..asked.len() {
        push_if_known(alloc, columns, names, &asked[i], &mut seen)?;
    }
    Ok(seen)
}

fn push_if_known(
    alloc: Global,
    columns: &KnownColumns,
    names: &Names,
    name: &Text,
    seen: &mut KnownColumns,
) -> Result<(), OutOfMemory>
    ensures { OnOk result (seen.new ≡ seen.old ++ column_if name.now (first_kind (known_columns columns.now names.now) name.now)) }
{
    match names.kind(columns, name) {
        Some(kind) => seen.push_copy(alloc, name, kind),
        None => Ok(()),
    }
}
