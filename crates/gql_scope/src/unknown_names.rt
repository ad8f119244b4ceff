//! E08: a name that is no column, or a declared name that is one already; and the columns behind a clause, which the same walk
//! makes.

ghost use Rattle.std.specs.Prelude.{◌≡◌, [], ◌∷◌, ◌++◌, OnOk, IsFalse};
ghost use Rattle.std.specs.List.{flat_map};
ghost use Rattle.std.specs.Option.{option_or};
ghost use Rattle.gql_ast.specs.Meaning.{tree_of};
ghost use Rattle.gql_ast.specs.Outputs.{kind_of, element_kind};
ghost use Rattle.gql_ast.specs.ClauseColumns.{let_columns, for_columns, counter_column};
ghost use Rattle.gql_ast.specs.Projections.{sort_columns, output_columns};
ghost use Rattle.gql_expr_checks.specs.Refusals.{refusal_of_first, misuse_if};
ghost use Rattle.gql_expr_checks.specs.ExprMisuses.{misused_expr, elsewhere};
ghost use Rattle.gql_expr_checks.specs.ExprNames.{unknown_in_expr};
ghost use Rattle.gql_scope.specs.Misuses.{misused_let};
ghost use Rattle.gql_scope.specs.UnknownNames.{taken, unknown_in_let, unknown_in_counter, unknown_in_for, unknown_in_keys, unknown_in_order, unknown_in_page, unknown_in_items, unknown_in_return, unknown_in_clause};
ghost use Rattle.gql_scope.specs.WholePatterns.{columns_past, unknown_names};
ghost use Rattle.gql_scope.specs.Machinery.Codes.{endpoints_in_clause, kinds_beside, misused_in_let, misused_beside};
ghost use Rattle.gql_scope.specs.Machinery.Forms.{columns_unless_match};
ghost use Rattle.gql_expr_checks.specs.Gives.{Gives};
ghost use Rattle.gql_norm.specs.NewColumns.{columns_after};
ghost use Rattle.gql_norm.specs.NormalData.{pattern_data};
ghost use Rattle.gql_norm.specs.UnknownNames.{unknown_in_match};

use crate::behind::{keep_outputs, push_counter, push_for_item, push_let_item};
use crate::change_names::pass_change;
use crate::match_columns::push_match;
use crate::misused_clauses::note_misuse;
use crate::normal_clause::NormalClause;
use crate::outputs::sort_scope;
use gql_ast::{
    Clause, Counting, For, LetItem, MapItem, Page, Refusal, Return, ReturnItem, ReturnItems,
    SortItem,
};
use gql_expr_checks::{KnownColumns, ScopeFault, check_names};
use gql_norm::NormalPattern;
use gql_pattern_checks::check_pattern_names;
use gql_values3::{OutOfMemory, Text};
use std::alloc::Global;

/// Checks that a declared name is no column.
fn check_free(alloc: Global, scope: &KnownColumns, name: &Text) -> Result<(), ScopeFault>
    ensures { Gives result (refusal_of_first Refusal.Variable (taken scope.now name.now)) }
{
    if !scope.contains(name) {
        return Ok(());
    }
    Err(ScopeFault::Defect(Refusal::Variable(name.try_copy(alloc)?)))
}

/// Checks the names of a map's values.
pub fn check_map(alloc: Global, scope: &KnownColumns, items: &[MapItem]) -> Result<(), ScopeFault>
    ensures { Gives result (refusal_of_first Refusal.Variable (flat_map (λ i. unknown_in_expr scope.now i.value) items.now)) }
{
    for item in items {
        check_names(alloc, scope, &item.value)?;
    }
    Ok(())
}

/// Checks an item of LET, notes what it misuses, and adds its column.
#[tactic(auto, using(gql_expr_checks::proofs::RefusalLemmas::first_of_in_two))]
fn check_let_item(
    alloc: Global,
    scope: &mut KnownColumns,
    misuses: &mut Option<Refusal>,
    item: &LetItem,
) -> Result<(), ScopeFault>
    ensures names { Gives result (refusal_of_first Refusal.Variable (taken scope.old item.now.name ++ unknown_in_expr scope.old item.now.value)) }
    ensures misuses { OnOk result (misuses.new ≡ option_or misuses.old (misuse_if (misused_expr scope.old elsewhere item.now.value))) }
    ensures columns { OnOk result (scope.new ≡ scope.old ++ (item.now.name, kind_of scope.old (tree_of item.now.value)) ∷ []) }
{
    check_free(alloc, scope, &item.name)?;
    check_names(alloc, scope, &item.value)?;
    note_misuse(scope, misuses, &item.value)?;
    push_let_item(alloc, scope, item)?;
    Ok(())
}

/// Checks the items of LET in order, each under the columns of those before, notes what they misuse (E15), and adds their columns.
fn check_let(
    alloc: Global,
    scope: &mut KnownColumns,
    misuses: &mut Option<Refusal>,
    items: &[LetItem],
) -> Result<(), ScopeFault>
    ensures names { Gives result (refusal_of_first Refusal.Variable (unknown_in_let scope.old items.now)) }
    ensures misuses { OnOk result (misuses.new ≡ option_or misuses.old (misuse_if (misused_let scope.old items.now))) }
    ensures columns { OnOk result (scope.new ≡ let_columns scope.old items.now) }
{
    for item in items {
        check_let_item(alloc, scope, misuses, item)?;
    }
    Ok(())
}

/// Checks the name of FOR's counter, and adds its column.
fn check_counter(
    alloc: Global,
    scope: &mut KnownColumns,
    counter: &Option<(Counting, Text)>,
) -> Result<(), ScopeFault>
    ensures names { Gives result (refusal_of_first Refusal.Variable (unknown_in_counter scope.old counter.now)) }
    ensures columns { OnOk result (scope.new ≡ scope.old ++ counter_column counter.now) }
{
    if let Some((_, name)) = counter {
        check_free(alloc, scope, name)?;
    }
    push_counter(alloc, scope, counter)?;
    Ok(())
}

/// Checks the name of FOR's item and its list, and adds the item's column.
#[tactic(auto, using(gql_expr_checks::proofs::RefusalLemmas::first_of_in_two))]
fn check_for_item(alloc: Global, scope: &mut KnownColumns, clause: &For) -> Result<(), ScopeFault>
    ensures names { Gives result (refusal_of_first Refusal.Variable (taken scope.old clause.now.name ++ unknown_in_expr scope.old clause.now.list)) }
    ensures columns { OnOk result (scope.new ≡ scope.old ++ (clause.now.name, element_kind (kind_of scope.old (tree_of clause.now.list))) ∷ []) }
{
    check_free(alloc, scope, &clause.name)?;
    check_names(alloc, scope, &clause.list)?;
    push_for_item(alloc, scope, clause)?;
    Ok(())
}

/// Checks FOR, and adds its columns.
#[tactic(auto, using(gql_expr_checks::proofs::RefusalLemmas::first_of_in_two))]
fn check_for(alloc: Global, scope: &mut KnownColumns, clause: &For) -> Result<(), ScopeFault>
    ensures names { Gives result (refusal_of_first Refusal.Variable (unknown_in_for scope.old clause.now)) }
    ensures columns { OnOk result (scope.new ≡ for_columns scope.old clause.now) }
{
    check_for_item(alloc, scope, clause)?;
    check_counter(alloc, scope, &clause.counter)
}

/// Checks the names of sort keys.
#[tactic(auto, using(gql_expr_checks::proofs::RefusalLemmas::first_of_in_two))]
fn check_keys(alloc: Global, scope: &KnownColumns, keys: &[SortItem]) -> Result<(), ScopeFault>
    ensures { Gives result (refusal_of_first Refusal.Variable (unknown_in_keys scope.now keys.now)) }
{
    for item in keys {
        check_names(alloc, scope, &item.key)?;
    }
    Ok(())
}

/// Checks the names of a page clause.
fn check_page(alloc: Global, scope: &KnownColumns, page: &Page) -> Result<(), ScopeFault>
    ensures { Gives result (refusal_of_first Refusal.Variable (unknown_in_page scope.now page.now)) }
{
    match page {
        Page::Order(keys, _, _) => check_keys(alloc, scope, keys.as_slice()),
        _ => Ok(()),
    }
}

/// Checks the names of RETURN's items.
#[tactic(auto, using(gql_expr_checks::proofs::RefusalLemmas::first_of_in_two))]
fn check_listed(alloc: Global, scope: &KnownColumns, items: &[ReturnItem]) -> Result<(), ScopeFault>
    ensures { Gives result (refusal_of_first Refusal.Variable (flat_map (λ i. unknown_in_expr scope.now i.value) items.now)) }
{
    for item in items {
        check_names(alloc, scope, &item.value)?;
    }
    Ok(())
}

fn check_items(alloc: Global, scope: &KnownColumns, items: &ReturnItems) -> Result<(), ScopeFault>
    ensures { Gives result (refusal_of_first Refusal.Variable (unknown_in_items scope.now items.now)) }
{
    match items {
        ReturnItems::All => Ok(()),
        ReturnItems::Listed(items) => check_listed(alloc, scope, items.as_slice()),
    }
}

/// Checks the names of RETURN's sort keys.
fn check_order(alloc: Global, scope: &KnownColumns, clause: &Return) -> Result<(), ScopeFault>
    ensures { Gives result (refusal_of_first Refusal.Variable (unknown_in_order (sort_columns scope.now clause.now) clause.now.order)) }
{
    match &clause.order {
        None => Ok(()),
        Some(keys) => {
            let seen = sort_scope(alloc, scope, clause)?;
            check_keys(alloc, &seen, keys.as_slice())
        }
    }
}

/// Checks the names of RETURN, and keeps its columns alone, unless it is the last clause.
#[tactic(auto, using(gql_expr_checks::proofs::RefusalLemmas::first_of_in_two))]
fn check_return(
    alloc: Global,
    scope: &mut KnownColumns,
    clause: &Return,
    is_last: bool,
) -> Result<(), ScopeFault>
    ensures names { Gives result (refusal_of_first Refusal.Variable (unknown_in_return scope.old clause.now)) }
    ensures columns { OnOk result (IsFalse is_last → scope.new ≡ output_columns scope.old clause.now.items) }
{
    check_items(alloc, scope, &clause.items)?;
    check_order(alloc, scope, clause)?;
    keep_unless_last(alloc, scope, &clause.items, is_last)?;
    Ok(())
}

fn keep_unless_last(
    alloc: Global,
    scope: &mut KnownColumns,
    items: &ReturnItems,
    is_last: bool,
) -> Result<(), OutOfMemory>
    ensures { OnOk result (IsFalse is_last → scope.new ≡ output_columns scope.old items.now) }
{
    if is_last {
        return Ok(());
    }
    keep_outputs(alloc, scope, items)
}

/// Checks the names of a pattern, and adds its columns, unless its clause is the last.
fn check_match(
    alloc: Global,
    scope: &mut KnownColumns,
    pattern: &NormalPattern,
    is_last: bool,
) -> Result<(), ScopeFault>
    ensures names { Gives result (refusal_of_first Refusal.Variable (unknown_in_match scope.old (pattern_data pattern.now))) }
    ensures columns { OnOk result (IsFalse is_last → scope.new ≡ columns_after scope.old (pattern_data pattern.now)) }
{
    check_pattern_names(alloc, scope, pattern)?;
    push_unless_last(alloc, scope, pattern, is_last)?;
    Ok(())
}

fn push_unless_last(
    alloc: Global,
    scope: &mut KnownColumns,
    pattern: &NormalPattern,
    is_last: bool,
) -> Result<(), OutOfMemory>
    ensures { OnOk result (IsFalse is_last → scope.new ≡ columns_after scope.old (pattern_data pattern.now)) }
{
    if is_last {
        return Ok(());
    }
    push_match(alloc, scope, pattern)
}

/// Passes a clause that is no MATCH.
#[tactic(auto, using(crate::proofs::CodeLemmas::or_none))]
fn pass_other(
    alloc: Global,
    scope: &mut KnownColumns,
    kinds: &mut Option<Refusal>,
    misuses: &mut Option<Refusal>,
    clause: &Clause,
    is_last: bool,
) -> Result<(), ScopeFault>
    ensures names { Gives result (refusal_of_first Refusal.Variable (unknown_in_clause scope.old clause.now)) }
    ensures kinds { OnOk result (kinds.new ≡ option_or kinds.old (refusal_of_first Refusal.Kind (endpoints_in_clause scope.old clause.now))) }
    ensures misuses { OnOk result (misuses.new ≡ option_or misuses.old (misuse_if (misused_in_let scope.old clause.now))) }
    ensures columns { OnOk result (IsFalse is_last → scope.new ≡ columns_unless_match scope.old clause.now) }
{
    match clause {
        Clause::Match(_) => Ok(()),
        Clause::Let(items) => check_let(alloc, scope, misuses, items.as_slice()),
        Clause::Filter(condition) => check_names(alloc, scope, condition),
        Clause::For(clause) => check_for(alloc, scope, clause),
        Clause::Page(page) => check_page(alloc, scope, page),
        Clause::Return(clause) => check_return(alloc, scope, clause, is_last),
        Clause::Change(change) => pass_change(alloc, scope, kinds, change, is_last),
    }
}

/// Checks the names of a clause, and changes the columns to those behind it, unless it is the last: nobody asks for those, and an
/// INSERT may give very many. In the same walk it notes the kinds of an INSERT (E09) and the misuses of a LET (E15), which
/// depend on the names before.
#[tactic(auto, using(crate::proofs::FormLemmas::by_forms, crate::proofs::CodeLemmas::or_none))]
pub fn pass_names(
    alloc: Global,
    scope: &mut KnownColumns,
    kinds: &mut Option<Refusal>,
    misuses: &mut Option<Refusal>,
    clause: &NormalClause,
    is_last: bool,
) -> Result<(), ScopeFault>
    ensures names { Gives result (refusal_of_first Refusal.Variable (unknown_names scope.old clause.now)) }
    ensures kinds { OnOk result (kinds.new ≡ option_or kinds.old (refusal_of_first Refusal.Kind (kinds_beside scope.old clause.now))) }
    ensures misuses { OnOk result (misuses.new ≡ option_or misuses.old (misuse_if (misused_beside scope.old clause.now))) }
    ensures columns { OnOk result (IsFalse is_last → scope.new ≡ columns_past scope.old clause.now) }
{
    match clause.pattern() {
        Some(pattern) => check_match(alloc, scope, pattern, is_last),
        None => pass_other(alloc, scope, kinds, misuses, clause.clause(), is_last),
    }
}
