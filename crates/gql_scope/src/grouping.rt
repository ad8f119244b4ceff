//! E16 of GROUP BY: its names are the keys, each once.

ghost use Rattle.std.specs.Prelude.{◌≡◌, [], ◌∷◌, ◌++◌, map, filter, not, ◌&&◌, OnOk, IfOk, if◌then◌else◌};
ghost use Rattle.gql_expr_checks.specs.Repeated.{is_among};
ghost use Rattle.gql_scope.specs.ColumnFaults.{key_names, faults_in_names, omitted, faults_in_grouping};
ghost use Rattle.gql_ast.specs.Meaning.{tree_of};
ghost use Rattle.gql_ast.specs.Outputs.{item_name};
ghost use Rattle.gql_ast.specs.Projections.{is_key};
ghost use Rattle.gql_expr_checks.specs.Refusals.{refusal_of_first};
ghost use Rattle.gql_ast.specs.declared.refusal.ColumnRef.TheVariants as column;
ghost use Rattle.gql_ast.specs.declared.refusal.Refusal.TheVariants as refusal;
ghost use Rattle.gql_expr_checks.specs.Gives.{Gives};
ghost use Rattle.gql_expr_checks.specs.Machinery.Seen.{names_of, seen_names};

use crate::column_faults::{fault_of, note_name};
use crate::outputs::{item_name, push_columns};
use gql_ast::{Return, ReturnItem, ReturnItems};
use gql_expr_checks::{KnownColumns, ScopeFault, has_aggregate};
use gql_values3::{ColumnKind, OutOfMemory, Text};
use std::alloc::Global;

/// Adds the output name of an item where it is a key.
#[tactic(auto, using(gql_expr_checks::proofs::SeenLemmas::seen))]
fn push_key(
    alloc: Global,
    scope: &KnownColumns,
    keys: &mut KnownColumns,
    item: &ReturnItem,
) -> Result<(), OutOfMemory>
    ensures { OnOk result (names_of keys.new ≡ names_of keys.old ++ (if is_key scope.now (tree_of item.now.value) then item_name item.now ∷ [] else [])) }
{
    if has_aggregate(scope, &item.value) {
        return Ok(());
    }
    keys.push(item_name(alloc, item)?, ColumnKind::Plain)
}

/// Adds the output names of the items that are keys.
#[tactic(auto, using(crate::proofs::ProjectionLemmas::key_step))]
fn push_keys(
    alloc: Global,
    scope: &KnownColumns,
    keys: &mut KnownColumns,
    items: &[ReturnItem],
) -> Result<(), OutOfMemory>
    ensures { OnOk result (names_of keys.new ≡ names_of keys.old ++ map item_name (filter (λ i. is_key scope.now (tree_of i.value)) items.now)) }
{
    for item in items {
        push_key(alloc, scope, keys, item)?;
    }
    Ok(())
}

/// The output names of the keys.
fn key_scope(
    alloc: Global,
    scope: &KnownColumns,
    items: &ReturnItems,
) -> Result<KnownColumns, OutOfMemory>
    ensures { IfOk result (λ keys. names_of keys ≡ key_names scope.now items.now) }
{
    let mut keys = KnownColumns::new(alloc);
    match items {
        ReturnItems::All => push_columns(alloc, &mut keys, scope.columns())?,
        ReturnItems::Listed(items) => push_keys(alloc, scope, &mut keys, items.as_slice())?,
    }
    Ok(keys)
}

/// Names in order.
#[tactic(auto, using(gql_expr_checks::proofs::SeenLemmas::seen))]
fn name_scope(alloc: Global, names: &[Text]) -> Result<KnownColumns, OutOfMemory>
    ensures { IfOk result (λ named. names_of named ≡ names.now) }
{
    let mut named = KnownColumns::new(alloc);
    for name in names {
        named.push_copy(alloc, name, ColumnKind::Plain)?;
    }
    Ok(named)
}

/// Checks that a name of GROUP BY is a key that was not seen before, and notes it.
#[tactic(auto, using(gql_expr_checks::proofs::SeenLemmas::seen))]
fn check_name(
    alloc: Global,
    keys: &KnownColumns,
    seen: &mut KnownColumns,
    name: &Text,
) -> Result<(), ScopeFault>
    ensures key { Gives result (refusal_of_first refusal.Column (if is_among (names_of keys.now) name.now && not (is_among (seen_names seen.old) name.now) then [] else column.Name name.now ∷ [])) }
    ensures noted { OnOk result (seen_names seen.new ≡ name.now ∷ seen_names seen.old) }
{
    if !keys.contains(name) {
        return Err(fault_of(alloc, name));
    }
    note_name(alloc, seen, name)
}

/// Checks the names of GROUP BY in order.
#[tactic(auto, using(crate::proofs::ProjectionLemmas::name_step))]
fn check_names(
    alloc: Global,
    scope: &KnownColumns,
    keys: &KnownColumns,
    names: &[Text],
) -> Result<(), ScopeFault>
    ensures { Gives result (refusal_of_first refusal.Column (faults_in_names scope.now (names_of keys.now) [] names.now)) }
{
    let mut seen = KnownColumns::new(alloc);
    for name in names {
        check_name(alloc, keys, &mut seen, name)?;
    }
    Ok(())
}

/// Checks that a key is named.
#[tactic(auto, using(gql_expr_checks::proofs::SeenLemmas::seen))]
fn check_key(alloc: Global, named: &KnownColumns, key: &Text) -> Result<(), ScopeFault>
    ensures { Gives result (refusal_of_first refusal.Column (if is_among (names_of named.now) key.now then [] else column.Name key.now ∷ [])) }
{
    if !named.contains(key) {
        return Err(fault_of(alloc, key));
    }
    Ok(())
}

/// Checks that each key is named.
#[tactic(auto, using(crate::proofs::ProjectionLemmas::omitted_step))]
fn check_omitted(
    alloc: Global,
    scope: &KnownColumns,
    keys: &[(Text, ColumnKind)],
    named: &KnownColumns,
) -> Result<(), ScopeFault>
    ensures { Gives result (refusal_of_first refusal.Column (omitted scope.now (names_of keys.now) (names_of named.now))) }
{
    for key in keys {
        check_key(alloc, named, &key.0)?;
    }
    Ok(())
}

/// Checks the names of GROUP BY against the keys.
#[tactic(auto, using(gql_expr_checks::proofs::RefusalLemmas::first_of_in_two))]
fn check_keys(
    alloc: Global,
    scope: &KnownColumns,
    keys: &KnownColumns,
    names: &[Text],
) -> Result<(), ScopeFault>
    ensures { Gives result (refusal_of_first refusal.Column (faults_in_names scope.now (names_of keys.now) [] names.now ++ omitted scope.now (names_of keys.now) names.now)) }
{
    check_names(alloc, scope, keys, names)?;
    let named = name_scope(alloc, names)?;
    check_omitted(alloc, scope, keys.columns(), &named)
}

/// Checks GROUP BY, where it stands.
pub fn check_grouping(
    alloc: Global,
    scope: &KnownColumns,
    clause: &Return,
) -> Result<(), ScopeFault>
    ensures { Gives result (refusal_of_first refusal.Column (faults_in_grouping scope.now (key_names scope.now clause.now.items) clause.now.grouping)) }
{
    match &clause.grouping {
        None => Ok(()),
        Some(names) => {
            let keys = key_scope(alloc, scope, &clause.items)?;
            check_keys(alloc, scope, &keys, names.as_slice())
        }
    }
}
