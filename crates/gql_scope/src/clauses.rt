//! One walk over a query's clauses, which makes the columns behind each once, and asks each code of a clause once, unless that code
//! has its refusal already.

ghost use Rattle.std.specs.Prelude.{◌≡◌, [], OnOk, IsFalse};
ghost use Rattle.std.specs.Option.{option_or};
ghost use Rattle.gql_expr_checks.specs.Gives.{Gives};
ghost use Rattle.gql_scope.specs.WholePatterns.{clauses_refusal, columns_past};
ghost use Rattle.gql_scope.specs.Machinery.Codes.{kept, first_over, names_refusal, refusal_by, apart_by};

use crate::column_faults::check_clause as check_columns;
use crate::joins::{check_conditional_join, check_group_join};
use crate::misused_clauses::check_clause as check_misuses;
use crate::normal_clause::NormalClause;
use crate::refusals::{Code, Refusals, note};
use crate::repetition::{check_empty_loop, check_open_end, check_references};
use crate::unknown_names::pass_names;
use crate::unset_parameters::check_clause as check_parameters;
use crate::wrong_kinds::check_clause as check_kinds;
use gql_ast::{Clause, Refusal};
use gql_expr_checks::{KnownColumns, ScopeFault};
use gql_values3::{OutOfMemory, Params};
use std::alloc::Global;

/// Checks a query's clauses, which begin without columns.
pub fn check_clauses(alloc: Global, clauses: &[Clause], params: &Params) -> Result<(), ScopeFault>
    ensures { Gives result (clauses_refusal params.now clauses.now) }
{
    let mut found = Refusals::new();
    pass_clauses(alloc, params, &mut found, clauses)?;
    found.answer()
}

/// Refuses by E08 at once, and notes of each other code the first refusal.
fn pass_clauses(
    alloc: Global,
    params: &Params,
    found: &mut Refusals,
    clauses: &[Clause],
) -> Result<(), ScopeFault>
    ensures names { Gives result (first_over names_refusal [] clauses.now) }
    ensures codes { OnOk result ((code : _) → kept code found.new ≡ option_or (kept code found.old) (first_over (refusal_by params.now code) [] clauses.now)) }
{
    let mut scope = KnownColumns::new(alloc);
    for i in 0..clauses.len() {
        let clause = &clauses[i];
        let is_last = i + 1 == clauses.len();
        pass_clause(alloc, params, &mut scope, found, clause, is_last)?;
    }
    Ok(())
}

/// The same of one clause; changes the columns to those behind it, unless it is the last: then nobody asks for them.
fn pass_clause(
    alloc: Global,
    params: &Params,
    scope: &mut KnownColumns,
    found: &mut Refusals,
    clause: &Clause,
    is_last: bool,
) -> Result<(), ScopeFault>
    ensures names { Gives result (names_refusal scope.old clause.now) }
    ensures codes { OnOk result ((code : _) → kept code found.new ≡ option_or (kept code found.old) (refusal_by params.now code scope.old clause.now)) }
    ensures columns { OnOk result (IsFalse is_last → scope.new ≡ columns_past scope.old clause.now) }
{
    let normal = NormalClause::new(alloc, clause)?;
    pass_normal(alloc, params, scope, found, &normal, is_last)
}

/// The same of a clause with its normal form.
fn pass_normal(
    alloc: Global,
    params: &Params,
    scope: &mut KnownColumns,
    found: &mut Refusals,
    clause: &NormalClause,
    is_last: bool,
) -> Result<(), ScopeFault>
    ensures names { Gives result (names_refusal scope.old clause.now) }
    ensures codes { OnOk result ((code : _) → kept code found.new ≡ option_or (kept code found.old) (refusal_by params.now code scope.old clause.now)) }
    ensures columns { OnOk result (IsFalse is_last → scope.new ≡ columns_past scope.old clause.now) }
{
    note_codes(alloc, params, scope, found, clause)?;
    pass_names(
        alloc,
        scope,
        &mut found.kinds,
        &mut found.misuses,
        clause,
        is_last,
    )
}

/// Notes what the codes refuse that are asked apart from the names.
fn note_codes(
    alloc: Global,
    params: &Params,
    scope: &KnownColumns,
    found: &mut Refusals,
    clause: &NormalClause,
) -> Result<(), OutOfMemory>
    ensures { OnOk result ((code : _) → kept code found.new ≡ option_or (kept code found.old) (apart_by params.now code scope.now clause.now)) }
{
    note_three(
        alloc,
        params,
        scope,
        clause,
        Code::Kinds,
        &mut found.kinds,
        Code::GroupJoins,
        &mut found.group_joins,
        Code::CondJoins,
        &mut found.cond_joins,
    )?;
    note_three(
        alloc,
        params,
        scope,
        clause,
        Code::EmptyLoops,
        &mut found.empty_loops,
        Code::OpenEnds,
        &mut found.open_ends,
        Code::GroupRefs,
        &mut found.group_refs,
    )?;
    note_three(
        alloc,
        params,
        scope,
        clause,
        Code::Misuses,
        &mut found.misuses,
        Code::Columns,
        &mut found.columns,
        Code::Parameters,
        &mut found.parameters,
    )
}

/// Notes what three codes refuse, each in its slot.
fn note_three(
    alloc: Global,
    params: &Params,
    scope: &KnownColumns,
    clause: &NormalClause,
    one: Code,
    first: &mut Option<Refusal>,
    two: Code,
    second: &mut Option<Refusal>,
    three: Code,
    third: &mut Option<Refusal>,
) -> Result<(), OutOfMemory>
    ensures first { OnOk result (first.new ≡ option_or first.old (apart_by params.now one scope.now clause.now)) }
    ensures second { OnOk result (second.new ≡ option_or second.old (apart_by params.now two scope.now clause.now)) }
    ensures third { OnOk result (third.new ≡ option_or third.old (apart_by params.now three scope.now clause.now)) }
{
    note_code(alloc, one, params, scope, first, clause)?;
    note_code(alloc, two, params, scope, second, clause)?;
    note_code(alloc, three, params, scope, third, clause)
}

/// Notes what a code refuses, unless it has its refusal.
fn note_code(
    alloc: Global,
    code: Code,
    params: &Params,
    scope: &KnownColumns,
    slot: &mut Option<Refusal>,
    clause: &NormalClause,
) -> Result<(), OutOfMemory>
    ensures { OnOk result (slot.new ≡ option_or slot.old (apart_by params.now code scope.now clause.now)) }
{
    if slot.is_some() {
        return Ok(());
    }
    note(slot, ask(alloc, code, params, scope, clause))
}

/// Asks a code.
fn ask(
    alloc: Global,
    code: Code,
    params: &Params,
    scope: &KnownColumns,
    clause: &NormalClause,
) -> Result<(), ScopeFault>
    ensures { Gives result (apart_by params.now code scope.now clause.now) }
{
    match code {
        Code::Kinds => check_kinds(alloc, scope, clause),
        Code::GroupJoins => check_group_join(alloc, scope, clause),
        Code::CondJoins => check_conditional_join(alloc, scope, clause),
        Code::EmptyLoops => check_empty_loop(clause),
        Code::OpenEnds => check_open_end(clause),
        Code::GroupRefs => check_references(alloc, clause),
        Code::Misuses => check_misuses(alloc, scope, clause),
        Code::Columns => check_columns(alloc, scope, clause),
        Code::Parameters => check_parameters(alloc, params, clause),
    }
}
