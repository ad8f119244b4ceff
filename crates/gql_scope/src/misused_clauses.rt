//! E15: something is misused in a clause.

ghost use Rattle.std.specs.Prelude.{◌≡◌, ◌||◌, OnOk};
ghost use Rattle.std.specs.List.{list_any};
ghost use Rattle.std.specs.Option.{option_or};
ghost use Rattle.gql_ast.specs.Projections.{sort_columns};
ghost use Rattle.gql_expr_checks.specs.ExprMisuses.{misused_expr, item, elsewhere};
ghost use Rattle.gql_expr_checks.specs.Gives.{Gives};
ghost use Rattle.gql_expr_checks.specs.Refusals.{misuse_if};
ghost use Rattle.gql_scope.specs.Misuses.{misused_keys, misused_order, misused_page, misused_items};
ghost use Rattle.gql_scope.specs.Machinery.Codes.{misused_but_let, misused_apart};

use crate::change_misuses::check_change;
use crate::normal_clause::NormalClause;
use crate::outputs::sort_scope;
use crate::refusals::note;
use gql_ast::{Clause, Expr, MapItem, Page, Refusal, Return, ReturnItem, ReturnItems, SortItem};
use gql_expr_checks::{KnownColumns, ScopeFault, check_item, check_misuse};
use gql_pattern_checks::check_pattern_misuse;
use gql_values3::OutOfMemory;
use std::alloc::Global;

/// Notes that something is misused in a value, unless that was so before.
pub fn note_misuse(
    scope: &KnownColumns,
    misuses: &mut Option<Refusal>,
    value: &Expr,
) -> Result<(), OutOfMemory>
    ensures { OnOk result (misuses.new ≡ option_or misuses.old (misuse_if (misused_expr scope.now elsewhere value.now))) }
{
    if misuses.is_some() {
        return Ok(());
    }
    note(misuses, check_misuse(scope, value))
}

/// Checks a map's values.
#[tactic(auto, using(gql_expr_checks::proofs::RefusalLemmas::misuse_in_two))]
pub fn check_map(scope: &KnownColumns, items: &[MapItem]) -> Result<(), ScopeFault>
    ensures { Gives result (misuse_if (list_any (λ i. misused_expr scope.now elsewhere i.value) items.now)) }
{
    for item in items {
        check_misuse(scope, &item.value)?;
    }
    Ok(())
}

/// Checks sort keys.
#[tactic(auto, using(gql_expr_checks::proofs::RefusalLemmas::misuse_in_two))]
fn check_keys(scope: &KnownColumns, keys: &[SortItem]) -> Result<(), ScopeFault>
    ensures { Gives result (misuse_if (misused_keys scope.now keys.now)) }
{
    for item in keys {
        check_misuse(scope, &item.key)?;
    }
    Ok(())
}

/// Checks a page clause.
fn check_page(scope: &KnownColumns, page: &Page) -> Result<(), ScopeFault>
    ensures { Gives result (misuse_if (misused_page scope.now page.now)) }
{
    match page {
        Page::Order(keys, _, _) => check_keys(scope, keys.as_slice()),
        _ => Ok(()),
    }
}

/// Checks the items of RETURN.
#[tactic(auto, using(gql_expr_checks::proofs::RefusalLemmas::misuse_in_two))]
fn check_listed(scope: &KnownColumns, items: &[ReturnItem]) -> Result<(), ScopeFault>
    ensures { Gives result (misuse_if (list_any (λ i. misused_expr scope.now item i.value) items.now)) }
{
    for item in items {
        check_item(scope, &item.value)?;
    }
    Ok(())
}

fn check_items(scope: &KnownColumns, items: &ReturnItems) -> Result<(), ScopeFault>
    ensures { Gives result (misuse_if (misused_items scope.now items.now)) }
{
    match items {
        ReturnItems::All => Ok(()),
        ReturnItems::Listed(items) => check_listed(scope, items.as_slice()),
    }
}

/// Checks the sort keys of RETURN.
fn check_order(alloc: Global, scope: &KnownColumns, clause: &Return) -> Result<(), ScopeFault>
    ensures { Gives result (misuse_if (misused_order (sort_columns scope.now clause.now) clause.now.order)) }
{
    match &clause.order {
        None => Ok(()),
        Some(keys) => {
            let seen = sort_scope(alloc, scope, clause)?;
            check_keys(&seen, keys.as_slice())
        }
    }
}

/// Checks RETURN.
#[tactic(auto, using(gql_expr_checks::proofs::RefusalLemmas::misuse_in_two))]
fn check_return(alloc: Global, scope: &KnownColumns, clause: &Return) -> Result<(), ScopeFault>
    ensures { Gives result (misuse_if (misused_items scope.now clause.now.items || misused_order (sort_columns scope.now clause.now) clause.now.order)) }
{
    check_items(scope, &clause.items)?;
    check_order(alloc, scope, clause)
}

/// Checks a clause that is neither MATCH nor LET.
fn check_other(alloc: Global, scope: &KnownColumns, clause: &Clause) -> Result<(), ScopeFault>
    ensures { Gives result (misuse_if (misused_but_let scope.now clause.now)) }
{
    match clause {
        Clause::Match(_) | Clause::Let(_) => Ok(()),
        Clause::Filter(condition) => check_misuse(scope, condition),
        Clause::For(clause) => check_misuse(scope, &clause.list),
        Clause::Page(page) => check_page(scope, page),
        Clause::Return(clause) => check_return(alloc, scope, clause),
        Clause::Change(change) => check_change(alloc, scope, change),
    }
}

/// Checks a clause; a LET, whose items see the names of those before, is asked in the walk of its names.
#[tactic(auto, using(crate::proofs::FormLemmas::by_forms))]
#[inline(never)]
pub fn check_clause(
    alloc: Global,
    scope: &KnownColumns,
    clause: &NormalClause,
) -> Result<(), ScopeFault>
    ensures { Gives result (misuse_if (misused_apart scope.now clause.now)) }
{
    match clause.pattern() {
        Some(pattern) => check_pattern_misuse(alloc, scope, pattern),
        None => check_other(alloc, scope, clause.clause()),
    }
}
