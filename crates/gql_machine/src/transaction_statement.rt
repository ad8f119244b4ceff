//! Statements about transactions.
ghost use Rattle.std.specs.Prelude.{◌≡◌};
ghost use Rattle.gql_machine.specs.StatementRun.{transaction_end};
ghost use Rattle.gql_machine.specs.Machinery.Meaning.{session_state};
ghost use Rattle.gql_machine.specs.Machinery.CommitPoints.{Ends};

use crate::ended::Ended;
use crate::state::Session;
use gql_ast::{Outcome, TransactionStatement};

/// START begins a transaction, and ROLLBACK ends it without its changes. COMMIT leaves it to the commit point behind it.
pub fn run_transaction_statement(session: &mut Session, statement: TransactionStatement) -> Ended
    ensures { Ends (λ end. end ≡ transaction_end (session_state session.old) statement) result (session_state session.new) }
{
    match statement {
        TransactionStatement::Start(mode) => {
            session.txn.begin(mode);
            done(false)
        }
        TransactionStatement::Commit => done(true),
        TransactionStatement::Rollback => {
            session.txn.rollback();
            done(true)
        }
    }
}

/// The statement was answered.
fn done(commits: bool) -> Ended
    ensures { result ≡ record { outcome = Outcome.Done; commits = commits } }
{
    Ended {
        outcome: Outcome::Done,
        commits,
    }
}
