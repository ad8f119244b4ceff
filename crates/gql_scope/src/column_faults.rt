//! E16: a name that stands twice, a column outside an aggregate, keys that GROUP BY misses, or no columns for `*`.

ghost use Rattle.std.specs.Prelude.{◌≡◌, [], ◌∷◌, ◌++◌, map, OnOk, if◌then◌else◌};
ghost use Rattle.gql_expr_checks.specs.Repeated.{is_among};
ghost use Rattle.gql_scope.specs.ColumnFaults.{columns_outside, repeated_name, faults_in_item, faults_in_list, faults_in_items, faults_in_return, faults_in_clause};
ghost use Rattle.gql_scope.specs.WholePatterns.{column_faults};
ghost use Rattle.gql_norm.specs.NormalData.{pattern_data};
ghost use Rattle.gql_norm.specs.OtherDefects.{repeated_properties};
ghost use Rattle.gql_ast.specs.Meaning.{tree_of};
ghost use Rattle.gql_ast.specs.Outputs.{item_name, text_name};
ghost use Rattle.gql_expr_checks.specs.Refusals.{refusal_of_first};
ghost use Rattle.gql_ast.specs.declared.refusal.ColumnRef.TheVariants as column;
ghost use Rattle.gql_expr_checks.specs.Gives.{Gives, Fails};
ghost use Rattle.gql_expr_checks.specs.Machinery.Seen.{seen_names};

use crate::change_maps::check_change;
use crate::grouping::check_grouping;
use crate::normal_clause::NormalClause;
use crate::outputs::text_name;
use gql_ast::{Clause, ColumnRef, Expr, Refusal, Return, ReturnItem, ReturnItems};
use gql_expr_checks::{KnownColumns, ScopeFault, has_aggregate, name_outside};
use gql_norm::NormalPattern;
use gql_pattern_checks::check_pattern_properties;
use gql_values3::{ColumnKind, Text};
use std::alloc::Global;

/// The fault of a column, by its name.
pub fn fault_of(alloc: Global, name: &Text) -> ScopeFault
    ensures { Fails result (Some (Refusal.Column (ColumnRef.Name name.now))) }
{
    match name.try_copy(alloc) {
        Ok(copy) => ScopeFault::Defect(Refusal::Column(ColumnRef::Name(copy))),
        Err(_) => ScopeFault::OutOfMemory,
    }
}

/// Checks that the column's name was not seen before, and notes it.
#[tactic(auto, using(gql_expr_checks::proofs::SeenLemmas::seen))]
pub fn note_name(alloc: Global, seen: &mut KnownColumns, name: &Text) -> Result<(), ScopeFault>
    ensures fresh { Gives result (refusal_of_first Refusal.Column (if is_among (seen_names seen.old) name.now then ColumnRef.Name name.now ∷ [] else [])) }
    ensures noted { OnOk result (seen_names seen.new ≡ name.now ∷ seen_names seen.old) }
{
    if seen.contains(name) {
        return Err(fault_of(alloc, name));
    }
    seen.push_copy(alloc, name, ColumnKind::Plain)?;
    Ok(())
}

/// Checks that an item with an aggregate over rows names no column outside it.
#[tactic(auto, using(crate::proofs::ProjectionLemmas::named))]
fn check_outside(alloc: Global, scope: &KnownColumns, expr: &Expr) -> Result<(), ScopeFault>
    ensures { Gives result (refusal_of_first Refusal.Column (columns_outside scope.now (tree_of expr.now))) }
{
    if !has_aggregate(scope, expr) {
        return Ok(());
    }
    match name_outside(scope, expr) {
        None => Ok(()),
        Some(name) => Err(fault_of(alloc, name)),
    }
}

/// Checks an item of RETURN with AS, and notes the name of its column, which stands behind the expression.
#[tactic(auto, using(gql_expr_checks::proofs::RefusalLemmas::first_of_in_two))]
fn check_named(
    alloc: Global,
    scope: &KnownColumns,
    seen: &mut KnownColumns,
    expr: &Expr,
    name: &Text,
) -> Result<(), ScopeFault>
    ensures faults { Gives result (refusal_of_first Refusal.Column (columns_outside scope.now (tree_of expr.now) ++ repeated_name scope.now (seen_names seen.old) name.now)) }
    ensures noted { OnOk result (seen_names seen.new ≡ name.now ∷ seen_names seen.old) }
{
    check_outside(alloc, scope, expr)?;
    note_name(alloc, seen, name)
}

/// Checks an item of RETURN without AS, and notes the name of its column, which begins where the expression does.
#[tactic(auto, using(gql_expr_checks::proofs::RefusalLemmas::first_of_in_two))]
fn check_unnamed(
    alloc: Global,
    scope: &KnownColumns,
    seen: &mut KnownColumns,
    expr: &Expr,
) -> Result<(), ScopeFault>
    ensures faults { Gives result (refusal_of_first Refusal.Column (repeated_name scope.now (seen_names seen.old) (text_name (tree_of expr.now)) ++ columns_outside scope.now (tree_of expr.now))) }
    ensures noted { OnOk result (seen_names seen.new ≡ text_name (tree_of expr.now) ∷ seen_names seen.old) }
{
    let name = text_name(alloc, expr)?;
    note_name(alloc, seen, &name)?;
    check_outside(alloc, scope, expr)
}

/// Checks an item of RETURN, and notes the name of its column.
fn check_item(
    alloc: Global,
    scope: &KnownColumns,
    seen: &mut KnownColumns,
    item: &ReturnItem,
) -> Result<(), ScopeFault>
    ensures faults { Gives result (refusal_of_first Refusal.Column (faults_in_item scope.now (seen_names seen.old) item.now)) }
    ensures noted { OnOk result (seen_names seen.new ≡ item_name item.now ∷ seen_names seen.old) }
{
    match &item.name {
        Some(name) => check_named(alloc, scope, seen, &item.value, name),
        None => check_unnamed(alloc, scope, seen, &item.value),
    }
}

/// Checks the items of RETURN in order.
fn check_listed(alloc: Global, scope: &KnownColumns, items: &[ReturnItem]) -> Result<(), ScopeFault>
    ensures { Gives result (refusal_of_first Refusal.Column (faults_in_list scope.now [] items.now)) }
{
    let mut seen = KnownColumns::new(alloc);
    for item in items {
        check_item(alloc, scope, &mut seen, item)?;
    }
    Ok(())
}

/// Checks what RETURN gives.
fn check_items(alloc: Global, scope: &KnownColumns, items: &ReturnItems) -> Result<(), ScopeFault>
    ensures { Gives result (refusal_of_first Refusal.Column (faults_in_items scope.now items.now)) }
{
    match items {
        ReturnItems::All => check_all(scope),
        ReturnItems::Listed(items) => check_listed(alloc, scope, items.as_slice()),
    }
}

/// Checks that there are columns for `*`.
fn check_all(scope: &KnownColumns) -> Result<(), ScopeFault>
    ensures { Gives result (refusal_of_first Refusal.Column (faults_in_items scope.now ReturnItems.All)) }
{
    match scope.columns() {
        [] => Err(ScopeFault::Defect(Refusal::Column(ColumnRef::All))),
        _ => Ok(()),
    }
}

/// Checks RETURN.
#[tactic(auto, using(gql_expr_checks::proofs::RefusalLemmas::first_of_in_two))]
fn check_return(alloc: Global, scope: &KnownColumns, clause: &Return) -> Result<(), ScopeFault>
    ensures { Gives result (refusal_of_first Refusal.Column (faults_in_return scope.now clause.now)) }
{
    check_items(alloc, scope, &clause.items)?;
    check_grouping(alloc, scope, clause)
}

/// Checks the maps of a pattern.
#[tactic(auto, using(crate::proofs::FormLemmas::first_mapped))]
fn check_match(alloc: Global, pattern: &NormalPattern) -> Result<(), ScopeFault>
    ensures { Gives result (refusal_of_first Refusal.Column (map column.Property (repeated_properties (pattern_data pattern.now)))) }
{
    check_pattern_properties(alloc, pattern)
}

/// Checks a clause that is no MATCH.
fn check_other(alloc: Global, scope: &KnownColumns, clause: &Clause) -> Result<(), ScopeFault>
    ensures { Gives result (refusal_of_first Refusal.Column (faults_in_clause scope.now clause.now)) }
{
    match clause {
        Clause::Change(change) => check_change(alloc, change),
        Clause::Return(clause) => check_return(alloc, scope, clause),
        _ => Ok(()),
    }
}

/// Checks a clause.
#[tactic(auto, using(crate::proofs::FormLemmas::by_forms))]
#[inline(never)]
pub fn check_clause(
    alloc: Global,
    scope: &KnownColumns,
    clause: &NormalClause,
) -> Result<(), ScopeFault>
    ensures { Gives result (refusal_of_first Refusal.Column (column_faults scope.now clause.now)) }
{
    match clause.pattern() {
        Some(pattern) => check_match(alloc, pattern),
        None => check_other(alloc, scope, clause.clause()),
    }
}
