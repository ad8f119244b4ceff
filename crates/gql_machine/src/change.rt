//! The graph behind a query that changes data.
ghost use Rattle.std.specs.Prelude.{◌≡◌, IfOk};
ghost use Rattle.gql_txn.specs.TxnData.{misfit_in};
ghost use Rattle.gql_machine.specs.StatementRun.{outcome_of_table};
ghost use Rattle.gql_machine.specs.Machinery.Meaning.{session_state, statement_end};
ghost use Rattle.gql_machine.specs.Machinery.QueryEnds.{put_end};

use crate::state::Session;
use gql_ast::{Outcome, Refusal};
use gql_graph::Graph;
use gql_txn::EditFault;
use gql_values3::{OutOfMemory, Table};
use std::alloc::Global;

/// Puts the graph in the place of the current one, and shows the table. A graph that doesn't conform to its type changes nothing.
pub fn put_graph(
    alloc: Global,
    session: &mut Session,
    graph: Graph,
    table: Option<Table>,
) -> Result<Outcome, OutOfMemory>
    ensures { IfOk result (λ made. statement_end made (session_state session.new) ≡ put_end (session_state session.old) table graph.graph (misfit_in session.old.txn.catalog session.old.graph graph.graph)) }
{
    match session
        .txn
        .replace_graph(alloc, session.graph.as_str(), graph)
    {
        Ok(()) => Ok(outcome_of_table(table)),
        Err(EditFault::Misfit(misfit)) => Ok(Outcome::Refused(Refusal::Misfit(misfit.elem))),
        Err(EditFault::OutOfMemory) => Err(OutOfMemory),
    }
}

/// The table, or `ok` where there is none.
pub fn outcome_of_table(table: Option<Table>) -> Outcome
    ensures { result ≡ outcome_of_table table }
{
    match table {
        Some(table) => Outcome::Table(table),
        None => Outcome::Done,
    }
}
