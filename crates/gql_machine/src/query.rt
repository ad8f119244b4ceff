//! Queries.
ghost use Rattle.std.specs.Prelude.{◌≡◌, [], true, false, IfOk};
ghost use Rattle.gql_graph.specs.Catalog.{graph_of};
ghost use Rattle.gql_linear.specs.QueryRun.{QueryMayRun, changes_data};
ghost use Rattle.gql_linear.specs.Runs.{Runs};
ghost use Rattle.gql_linear.specs.SoundQuery.{MatchesAreSound};
ghost use Rattle.gql_machine.specs.SessionState.{graph_or_empty};
ghost use Rattle.gql_machine.specs.StatementRun.{outcome_of_table, QueryMayEnd};
ghost use Rattle.gql_machine.specs.Machinery.Meaning.{session_state, statement_end};
ghost use Rattle.gql_machine.specs.Machinery.QueryEnds.{ComesTo};

use crate::change::{outcome_of_table, put_graph};
use crate::current::{copy_statement_graph, statement_graph};
use crate::state::Session;
use crate::tools::Tools;
use gql_ast::{Outcome, Query};
use gql_graph::{Catalog, Graph};
use gql_linear::{Answer, RunFault, changes_data, run_query, run_reading_query};
use gql_starts::Matcher;
use gql_values3::{OutOfMemory, Params, Text};

/// What a query may give over the graph over which statements are evaluated: its table, `ok`, or its first refusal. One that is
/// refused changes nothing.
pub fn answer_query<M: Matcher<Graph>>(
    tools: &Tools<M>,
    session: &mut Session,
    query: &Query,
) -> Result<Outcome, OutOfMemory>
    requires { MatchesAreSound session.old.parameters [] query.now.clauses }
    ensures { IfOk result (λ made. QueryMayEnd (session_state session.old) query.now (statement_end made (session_state session.new))) }
{
    if changes_data(query) {
        change_graph(tools, session, query)
    } else {
        read_graph(
            tools,
            session.txn.catalog(),
            &session.graph,
            &session.parameters,
            query,
        )
    }
}

/// A query in which no clause changes data.
fn read_graph<M: Matcher<Graph>>(
    tools: &Tools<M>,
    catalog: &Catalog,
    name: &Text,
    parameters: &Params,
    query: &Query,
) -> Result<Outcome, OutOfMemory>
    requires sound { MatchesAreSound parameters.now [] query.now.clauses }
    requires reads { changes_data query.now ≡ false }
    ensures { IfOk result (λ made. ComesTo (graph_or_empty (graph_of catalog.now name.now)) parameters.now query.now made) }
{
    let empty = Graph::new(tools.alloc);
    let graph = statement_graph(catalog, name, &empty);
    match read_on(tools, graph, parameters, query) {
        Ok(answer) => Ok(shown(answer)),
        Err(RunFault::Refused(refusal)) => Ok(Outcome::Refused(refusal)),
        Err(RunFault::OutOfMemory) => Err(OutOfMemory),
    }
}

/// A query that changes data works on a copy of the graph, which takes its place where the query is answered.
fn change_graph<M: Matcher<Graph>>(
    tools: &Tools<M>,
    session: &mut Session,
    query: &Query,
) -> Result<Outcome, OutOfMemory>
    requires sound { MatchesAreSound session.old.parameters [] query.now.clauses }
    requires changes { changes_data query.now ≡ true }
    ensures { IfOk result (λ made. QueryMayEnd (session_state session.old) query.now (statement_end made (session_state session.new))) }
{
    let mut graph = copy_statement_graph(tools.alloc, session.txn.catalog(), &session.graph)?;
    match run_on(tools, &mut graph, &session.parameters, query) {
        Ok(answer) => put_graph(tools.alloc, session, graph, answer.table),
        Err(RunFault::Refused(refusal)) => Ok(Outcome::Refused(refusal)),
        Err(RunFault::OutOfMemory) => Err(OutOfMemory),
    }
}

/// Runs a query that reads over a graph in memory.
fn read_on<M: Matcher<Graph>>(
    tools: &Tools<M>,
    graph: &Graph,
    parameters: &Params,
    query: &Query,
) -> Result<Answer, RunFault>
    requires sound { MatchesAreSound parameters.now [] query.now.clauses }
    requires reads { changes_data query.now ≡ false }
    ensures { Runs query.now result graph.now.graph (QueryMayRun graph.now.graph parameters.now query.now) }
{
    run_reading_query(tools.alloc, tools.matcher, graph, parameters, query)
}

/// Runs a query over a graph in memory, which becomes the one behind it.
fn run_on<M: Matcher<Graph>>(
    tools: &Tools<M>,
    graph: &mut Graph,
    parameters: &Params,
    query: &Query,
) -> Result<Answer, RunFault>
    requires { MatchesAreSound parameters.now [] query.now.clauses }
    ensures { Runs query.now result graph.new.graph (QueryMayRun graph.old.graph parameters.now query.now) }
{
    run_query(tools.alloc, tools.matcher, graph, parameters, query)
}

/// What a query's answer is shown as.
fn shown(answer: Answer) -> Outcome
    ensures { result ≡ outcome_of_table answer.table }
{
    let Answer { table } = answer;
    outcome_of_table(table)
}
