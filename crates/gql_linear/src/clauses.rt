//! The clauses of a query, one after the other.

ghost use Rattle.std.specs.Prelude.{◌≡◌, [], ◌∷◌, true, false, IfOk};
ghost use Rattle.std.specs.List.{list_any};
ghost use Rattle.gql_ast.specs.LastClause.{is_change};
ghost use Rattle.gql_ast.specs.declared.clause.Clause.TheVariants.{Change as change_clause};
ghost use Rattle.gql_linear.specs.Gives.{MayGive};
ghost use Rattle.gql_linear.specs.Machinery.TableClauses.{is_over_tables};
ghost use Rattle.gql_linear.specs.QueryRun.{beginning, MayLeadTo, MayRun};
ghost use Rattle.gql_linear.specs.SoundQuery.{MatchIsSound, MatchesAreSound, columns_past};

use crate::answer::RunFault;
use crate::match_clause::match_table;
use crate::setting::QuerySetting;
use gql_ast::{ChangeClause, Clause};
use gql_change::{Planned, apply as make_changes, plan, reserve};
use gql_graph::Edit;
use gql_starts::Matcher;
use gql_table::apply;
use gql_values3::{Columns, OutOfMemory, Row, Rows, View};
use std::alloc::Global;

/// The columns and rows behind all clauses of a query that reads, or its refusal. A query begins with one row without
/// columns.
pub fn table_behind<M: Matcher<V>, V: View>(
    setting: &QuerySetting<M>,
    view: &V,
    clauses: &[Clause],
) -> Result<(Columns, Rows), RunFault>
    requires reads { list_any is_change clauses.now ≡ false }
    requires sound { MatchesAreSound setting.now.params.now [] clauses.now }
    ensures { MayGive (λ t. record { graph = V.graph view.now; columns = t.0; rows = t.1 }) (MayRun setting.now.params.now (beginning (V.graph view.now)) clauses.now) result }
{
    let mut table = (Columns::new(setting.alloc), one_row(setting.alloc)?);
    for i in 0..clauses.len() {
        let clause = &clauses[i];
        table = table_after(setting, view, table, clause)?;
    }
    Ok(table)
}

/// The columns and rows behind all clauses of a query, or its refusal. The graph becomes the one behind them.
pub fn run_clauses<M: Matcher<G>, G: Edit>(
    setting: &QuerySetting<M>,
    graph: &mut G,
    clauses: &[Clause],
) -> Result<(Columns, Rows), RunFault>
    requires sound { MatchesAreSound setting.now.params.now [] clauses.now }
    ensures { MayGive (λ t. record { graph = G.View.graph graph.new; columns = t.0; rows = t.1 }) (MayRun setting.now.params.now (beginning (G.View.graph graph.old)) clauses.now) result }
{
    let mut table = (Columns::new(setting.alloc), one_row(setting.alloc)?);
    for at in 0..clauses.len() {
        let clause = &clauses[at];
        table = run_clause(setting, graph, table, clause)?;
    }
    Ok(table)
}

/// One row without values.
fn one_row(alloc: Global) -> Result<Rows, OutOfMemory>
    ensures { IfOk result (λ rows. rows ≡ [] ∷ []) }
{
    let mut rows = Rows::new(alloc);
    rows.push(Row::new(alloc))?;
    Ok(rows)
}

/// What is behind one clause. A clause that reads leaves the graph.
fn run_clause<M: Matcher<G>, G: Edit>(
    setting: &QuerySetting<M>,
    graph: &mut G,
    table: (Columns, Rows),
    clause: &Clause,
) -> Result<(Columns, Rows), RunFault>
    requires sound { MatchIsSound setting.now.params.now table.0 clause.now }
    ensures given { MayGive (λ t. record { graph = G.View.graph graph.new; columns = t.0; rows = t.1 }) (MayLeadTo setting.now.params.now (record { graph = G.View.graph graph.old; columns = table.0; rows = table.1 }) clause.now) result }
    ensures columns { IfOk result (λ t. t.0 ≡ columns_past table.0 clause.now) }
{
    match clause {
        Clause::Change(clause) => change(setting, graph, table, clause),
        Clause::Match(_)
        | Clause::Let(_)
        | Clause::Filter(_)
        | Clause::For(_)
        | Clause::Page(_)
        | Clause::Return(_) => table_after(setting, &*graph, table, clause),
    }
}

/// What is behind a clause that changes data.
fn change<M, G: Edit>(
    setting: &QuerySetting<M>,
    graph: &mut G,
    table: (Columns, Rows),
    clause: &ChangeClause,
) -> Result<(Columns, Rows), RunFault>
    ensures given { MayGive (λ t. record { graph = G.View.graph graph.new; columns = t.0; rows = t.1 }) (MayLeadTo setting.now.params.now (record { graph = G.View.graph graph.old; columns = table.0; rows = table.1 }) (change_clause clause.now)) result }
    ensures columns { IfOk result (λ t. t.0 ≡ columns_past table.0 (change_clause clause.now)) }
{
    let (columns, rows) = table;
    let planned = plan(
        setting.alloc,
        &*graph,
        &columns,
        rows,
        setting.params,
        clause,
    )?;
    let Planned {
        mut list,
        columns,
        rows,
    } = planned;
    reserve(setting.alloc, graph, &mut list)?;
    let _undo = make_changes(graph, list);
    Ok((columns, rows))
}

/// The columns and rows behind one clause that reads, or its first fault.
fn table_after<M: Matcher<V>, V: View>(
    setting: &QuerySetting<M>,
    view: &V,
    table: (Columns, Rows),
    clause: &Clause,
) -> Result<(Columns, Rows), RunFault>
    requires reads { is_change clause.now ≡ false }
    requires sound { MatchIsSound setting.now.params.now table.0 clause.now }
    ensures given { MayGive (λ t. record { graph = V.graph view.now; columns = t.0; rows = t.1 }) (MayLeadTo setting.now.params.now (record { graph = V.graph view.now; columns = table.0; rows = table.1 }) clause.now) result }
    ensures columns { IfOk result (λ t. t.0 ≡ columns_past table.0 clause.now) }
{
    match clause {
        Clause::Match(clause) => {
            let (columns, rows) = table;
            match_table(setting, view, &columns, rows, clause)
        }
        Clause::Let(_)
        | Clause::Filter(_)
        | Clause::For(_)
        | Clause::Page(_)
        | Clause::Change(_)
        | Clause::Return(_) => over_table(setting, view, table, clause),
    }
}

/// The columns and rows behind a clause over tables, or its first fault.
fn over_table<M, V: View>(
    setting: &QuerySetting<M>,
    view: &V,
    table: (Columns, Rows),
    clause: &Clause,
) -> Result<(Columns, Rows), RunFault>
    requires { is_over_tables clause.now ≡ true }
    ensures given { MayGive (λ t. record { graph = V.graph view.now; columns = t.0; rows = t.1 }) (MayLeadTo setting.now.params.now (record { graph = V.graph view.now; columns = table.0; rows = table.1 }) clause.now) result }
    ensures columns { IfOk result (λ t. t.0 ≡ columns_past table.0 clause.now) }
{
    let (columns, rows) = table;
    let done = apply(setting.alloc, view, &columns, rows, setting.params, clause)?;
    Ok(done)
}
