//! One statement of a session: it is refused, or it is executed.
ghost use Rattle.std.specs.Prelude.{◌≡◌, IfOk, OnOk};
ghost use Rattle.gql_machine.specs.StatementRun.{MayExecute, StatementMayRun};
ghost use Rattle.gql_machine.specs.Machinery.Meaning.{session_state};
ghost use Rattle.gql_machine.specs.Machinery.Allowed.{IsAllowed};
ghost use Rattle.gql_machine.specs.Machinery.CommitPoints.{Ends};

use crate::catalog_statement::run_catalog_statement;
use crate::ended::{Ended, end_with};
use crate::query::answer_query;
use crate::refusals::first_refusal;
use crate::session_statement::run_session_statement;
use crate::state::Session;
use crate::tools::Tools;
use crate::transaction_statement::run_transaction_statement;
use gql_ast::{Outcome, Statement};
use gql_graph::Graph;
use gql_starts::Matcher;
use gql_values3::OutOfMemory;

/// An end that the statement may have; the session is then as it says. A statement that is refused changes nothing, and no
/// statement changes what is kept.
pub fn run_statement<M: Matcher<Graph>>(
    tools: &Tools<M>,
    session: &mut Session,
    statement: &Statement,
) -> Result<Ended, OutOfMemory>
    ensures ends { IfOk result (λ made. Ends (StatementMayRun (session_state session.old) statement.now) made (session_state session.new)) }
    ensures kept { OnOk result (session.new.txn.kept ≡ session.old.txn.kept) }
{
    match first_refusal(tools.alloc, session, statement)? {
        Some(refusal) => Ok(Ended {
            outcome: Outcome::Refused(refusal),
            commits: false,
        }),
        None => execute(tools, session, statement),
    }
}

/// What a statement does that nothing refuses before.
fn execute<M: Matcher<Graph>>(
    tools: &Tools<M>,
    session: &mut Session,
    statement: &Statement,
) -> Result<Ended, OutOfMemory>
    requires { IsAllowed (session_state session.old) statement.now }
    ensures { IfOk result (λ made. Ends (MayExecute (session_state session.old) statement.now) made (session_state session.new)) }
{
    match statement {
        Statement::Query(query) => {
            let outcome = answer_query(tools, session, query)?;
            Ok(end_with(outcome, &session.txn))
        }
        Statement::Session(statement) => {
            let outcome = run_session_statement(tools.alloc, session, statement)?;
            Ok(end_with(outcome, &session.txn))
        }
        Statement::Transaction(statement) => Ok(run_transaction_statement(session, *statement)),
        Statement::Catalog(statement) => {
            run_catalog_statement(tools.alloc, &mut session.txn, statement)?;
            Ok(end_with(Outcome::Done, &session.txn))
        }
    }
}
