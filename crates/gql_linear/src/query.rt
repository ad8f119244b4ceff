//! The entry points: a query over a graph that it may change, or over one that it reads.

ghost use Rattle.std.specs.Prelude.{◌≡◌, [], false, map, IfOk};
ghost use Rattle.gql_values3.specs.PropertyGraph.{PropertyGraph};
ghost use Rattle.gql_linear.specs.QueryRun.{QueryMayRun, answer_table, changes_data};
ghost use Rattle.gql_linear.specs.Runs.{Runs};
ghost use Rattle.gql_linear.specs.SoundQuery.{MatchesAreSound};

use crate::answer::{Answer, RunFault};
use crate::clauses::{run_clauses, table_behind};
use crate::setting::QuerySetting;
use gql_ast::{Query, ends_in_change, is_change};
use gql_graph::Edit;
use gql_starts::Matcher;
use gql_values3::{Columns, Names, OutOfMemory, Params, Rows, Table, View};
use std::alloc::Global;

/// Runs the clauses of a query one after the other over a graph, which becomes the one behind them. Patterns are matched by
/// the matcher; none may be refused under the columns before its clause.
///
/// Ok holds the table of its RETURN, or none where the query ends in a change of data. `Refused` is the first refusal
/// that a clause met: E18 with its first fault, rows in order and, within a row, expressions in the order of the text;
/// E20, E21 or E24 of a change. After a refusal, and where memory runs out, the graph may be any of those on the way.
pub fn run_query<M: Matcher<G>, G: Edit>(
    alloc: Global,
    matcher: &M,
    graph: &mut G,
    params: &Params,
    query: &Query,
) -> Result<Answer, RunFault>
    requires { MatchesAreSound params.now [] query.now.clauses }
    ensures { Runs query.now result (G.View.graph graph.new) (QueryMayRun (G.View.graph graph.old) params.now query.now) }
{
    let setting = QuerySetting {
        alloc,
        matcher,
        params,
    };
    let (columns, rows) = run_clauses(&setting, graph, query.clauses.as_slice())?;
    Ok(answered(alloc, query, columns, rows)?)
}

/// The same for a query in which no clause changes data, over the graph of a view.
pub fn run_reading_query<M: Matcher<V>, V: View>(
    alloc: Global,
    matcher: &M,
    view: &V,
    params: &Params,
    query: &Query,
) -> Result<Answer, RunFault>
    requires reads { changes_data query.now ≡ false }
    requires sound { MatchesAreSound params.now [] query.now.clauses }
    ensures { Runs query.now result (V.graph view.now) (QueryMayRun (V.graph view.now) params.now query.now) }
{
    let setting = QuerySetting {
        alloc,
        matcher,
        params,
    };
    let (columns, rows) = table_behind(&setting, view, query.clauses.as_slice())?;
    Ok(answered(alloc, query, columns, rows)?)
}

/// Whether some clause of the query changes data.
pub fn changes_data(query: &Query) -> bool
    ensures { result ≡ changes_data query.now }
{
    query
        .clauses
        .as_slice()
        .iter()
        .any(|clause| is_change(clause))
}

/// The answer with its table, if it has one.
fn answered(
    alloc: Global,
    query: &Query,
    columns: Columns,
    rows: Rows,
) -> Result<Answer, OutOfMemory>
    ensures { IfOk result (λ a. (g : PropertyGraph) → a.table ≡ answer_table query.now (record { graph = g; columns = columns; rows = rows })) }
{
    if ends_in_change(query.clauses.as_slice()) {
        return Ok(Answer { table: None });
    }
    let columns = names_of(alloc, columns)?;
    Ok(Answer {
        table: Some(Table { columns, rows }),
    })
}

fn names_of(alloc: Global, columns: Columns) -> Result<Names, OutOfMemory>
    ensures { IfOk result (λ names. names ≡ map (λ c. c.0) columns) }
{
    let mut names = Names::new(alloc);
    for column in columns.into_vec() {
        names.push(column.0)?;
    }
    Ok(names)
}
