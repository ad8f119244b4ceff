//! E23: a parameter that isn't set.

ghost use Rattle.std.specs.Prelude.{◌++◌};
ghost use Rattle.std.specs.List.{flat_map};
ghost use Rattle.gql_expr_checks.specs.Refusals.{refusal_of_first};
ghost use Rattle.gql_expr_checks.specs.ExprParameters.{unset, parameters_of};
ghost use Rattle.gql_scope.specs.UnsetParameters.{parameters_of_keys, parameters_of_order, parameters_of_count, parameters_of_count_if, parameters_of_page, parameters_of_items, parameters_of_return, parameters_of_clause};
ghost use Rattle.gql_scope.specs.WholePatterns.{unset_in_clause};
ghost use Rattle.gql_expr_checks.specs.Gives.{Gives};

use crate::change_parameters::check_change;
use crate::normal_clause::NormalClause;
use gql_ast::{
    Clause, LetItem, MapItem, Page, Refusal, Return, ReturnItem, ReturnItems, RowCount, SortItem,
    SortItems,
};
use gql_expr_checks::{ScopeFault, check_parameter, check_parameters};
use gql_pattern_checks::check_pattern_parameters;
use gql_values3::{Params, Text};
use std::alloc::Global;

/// Checks the parameters of a map's values.
pub fn check_map(alloc: Global, params: &Params, items: &[MapItem]) -> Result<(), ScopeFault>
    ensures { Gives result (refusal_of_first Refusal.Parameter (unset params.now (flat_map (λ i. parameters_of i.value) items.now))) }
{
    for item in items {
        check_parameters(alloc, params, &item.value)?;
    }
    Ok(())
}

/// Checks the parameters of LET.
fn check_let(alloc: Global, params: &Params, items: &[LetItem]) -> Result<(), ScopeFault>
    ensures { Gives result (refusal_of_first Refusal.Parameter (unset params.now (flat_map (λ i. parameters_of i.value) items.now))) }
{
    for item in items {
        check_parameters(alloc, params, &item.value)?;
    }
    Ok(())
}

/// Checks the parameters of sort keys.
fn check_keys(alloc: Global, params: &Params, keys: &[SortItem]) -> Result<(), ScopeFault>
    ensures { Gives result (refusal_of_first Refusal.Parameter (unset params.now (parameters_of_keys keys.now))) }
{
    for item in keys {
        check_parameters(alloc, params, &item.key)?;
    }
    Ok(())
}

fn check_order(alloc: Global, params: &Params, order: &Option<SortItems>) -> Result<(), ScopeFault>
    ensures { Gives result (refusal_of_first Refusal.Parameter (unset params.now (parameters_of_order order.now))) }
{
    match order {
        None => Ok(()),
        Some(keys) => check_keys(alloc, params, keys.as_slice()),
    }
}

/// Checks the parameter of a number of rows.
#[tactic(auto, using(gql_expr_checks::proofs::RefusalLemmas::first_of_first))]
fn check_count(alloc: Global, params: &Params, count: &RowCount) -> Result<(), ScopeFault>
    ensures { Gives result (refusal_of_first Refusal.Parameter (unset params.now (parameters_of_count count.now))) }
{
    match count {
        RowCount::Number(_) => Ok(()),
        RowCount::Parameter(parameter) => check_parameter(alloc, params, parameter),
    }
}

fn check_count_if(
    alloc: Global,
    params: &Params,
    count: &Option<RowCount>,
) -> Result<(), ScopeFault>
    ensures { Gives result (refusal_of_first Refusal.Parameter (unset params.now (parameters_of_count_if count.now))) }
{
    match count {
        None => Ok(()),
        Some(count) => check_count(alloc, params, count),
    }
}

/// Checks the parameters of sort keys, and then those of OFFSET and LIMIT.
#[tactic(auto, using(gql_expr_checks::proofs::RefusalLemmas::unset_of_two))]
fn check_ordered(
    alloc: Global,
    params: &Params,
    keys: &[SortItem],
    skip: &Option<RowCount>,
    limit: &Option<RowCount>,
) -> Result<(), ScopeFault>
    ensures { Gives result (refusal_of_first Refusal.Parameter (unset params.now (parameters_of_keys keys.now ++ parameters_of_count_if skip.now ++ parameters_of_count_if limit.now))) }
{
    check_keys(alloc, params, keys)?;
    check_count_if(alloc, params, skip)?;
    check_count_if(alloc, params, limit)
}

/// Checks the parameters of OFFSET, and then those of LIMIT.
#[tactic(auto, using(gql_expr_checks::proofs::RefusalLemmas::unset_of_two))]
fn check_skip(
    alloc: Global,
    params: &Params,
    skip: &RowCount,
    limit: &Option<RowCount>,
) -> Result<(), ScopeFault>
    ensures { Gives result (refusal_of_first Refusal.Parameter (unset params.now (parameters_of_count skip.now ++ parameters_of_count_if limit.now))) }
{
    check_count(alloc, params, skip)?;
    check_count_if(alloc, params, limit)
}

/// Checks the parameters of a page clause.
fn check_page(alloc: Global, params: &Params, page: &Page) -> Result<(), ScopeFault>
    ensures { Gives result (refusal_of_first Refusal.Parameter (unset params.now (parameters_of_page page.now))) }
{
    match page {
        Page::Order(keys, skip, limit) => {
            check_ordered(alloc, params, keys.as_slice(), skip, limit)
        }
        Page::Skip(skip, limit) => check_skip(alloc, params, skip, limit),
        Page::Limit(limit) => check_count(alloc, params, limit),
    }
}

/// Checks the parameters of RETURN's items.
fn check_listed(alloc: Global, params: &Params, items: &[ReturnItem]) -> Result<(), ScopeFault>
    ensures { Gives result (refusal_of_first Refusal.Parameter (unset params.now (flat_map (λ i. parameters_of i.value) items.now))) }
{
    for item in items {
        check_parameters(alloc, params, &item.value)?;
    }
    Ok(())
}

fn check_items(alloc: Global, params: &Params, items: &ReturnItems) -> Result<(), ScopeFault>
    ensures { Gives result (refusal_of_first Refusal.Parameter (unset params.now (parameters_of_items items.now))) }
{
    match items {
        ReturnItems::All => Ok(()),
        ReturnItems::Listed(items) => check_listed(alloc, params, items.as_slice()),
    }
}

/// Checks the parameters of RETURN.
#[tactic(auto, using(gql_expr_checks::proofs::RefusalLemmas::unset_of_two))]
fn check_return(alloc: Global, params: &Params, clause: &Return) -> Result<(), ScopeFault>
    ensures { Gives result (refusal_of_first Refusal.Parameter (unset params.now (parameters_of_return clause.now))) }
{
    check_items(alloc, params, &clause.items)?;
    check_order(alloc, params, &clause.order)?;
    check_count_if(alloc, params, &clause.skip)?;
    check_count_if(alloc, params, &clause.limit)
}

/// Checks the parameters of a clause that is no MATCH.
fn check_other(alloc: Global, params: &Params, clause: &Clause) -> Result<(), ScopeFault>
    ensures { Gives result (refusal_of_first Refusal.Parameter (unset params.now (parameters_of_clause clause.now))) }
{
    match clause {
        Clause::Match(_) => Ok(()),
        Clause::Let(items) => check_let(alloc, params, items.as_slice()),
        Clause::Filter(condition) => check_parameters(alloc, params, condition),
        Clause::For(clause) => check_parameters(alloc, params, &clause.list),
        Clause::Page(page) => check_page(alloc, params, page),
        Clause::Return(clause) => check_return(alloc, params, clause),
        Clause::Change(change) => check_change(alloc, params, change),
    }
}

/// Checks the parameters of a clause.
#[tactic(auto, using(crate::proofs::FormLemmas::by_forms))]
#[inline(never)]
pub fn check_clause(alloc: Global, params: &Params, clause: &NormalClause) -> Result<(), ScopeFault>
    ensures { Gives result (refusal_of_first Refusal.Parameter (unset_in_clause params.now clause.now)) }
{
    match clause.pattern() {
        Some(pattern) => check_pattern_parameters(alloc, params, pattern),
        None => check_other(alloc, params, clause.clause()),
    }
}
