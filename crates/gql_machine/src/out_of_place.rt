//! E17: what the open transaction does not allow.
ghost use Rattle.std.specs.Prelude.{◌≡◌};
ghost use Rattle.gql_machine.specs.Machinery.Meaning.{session_state};
ghost use Rattle.gql_machine.specs.StateRefusals.{is_read_only, is_out_of_place, transaction_refusal};

use crate::state::Session;
use gql_ast::{AccessMode, Refusal, Statement, TransactionStatement};
use gql_linear::changes_data;

/// The refusal of START where a transaction is open, of COMMIT and ROLLBACK where none is, and of what changes something in a READ
/// ONLY transaction.
pub fn transaction_refusal(session: &Session, statement: &Statement) -> Option<Refusal>
    ensures { result ≡ transaction_refusal (session_state session.now) statement.now }
{
    if is_out_of_place(session.txn.access(), statement) {
        Some(Refusal::Transaction)
    } else {
        None
    }
}

fn is_out_of_place(access: Option<AccessMode>, statement: &Statement) -> bool
    ensures { result ≡ is_out_of_place access statement.now }
{
    match statement {
        Statement::Query(query) => changes_data(query) & is_read_only(access),
        Statement::Session(_) => false,
        Statement::Transaction(TransactionStatement::Start(_)) => access.is_some(),
        Statement::Transaction(_) => access.is_none(),
        Statement::Catalog(_) => is_read_only(access),
    }
}

fn is_read_only(access: Option<AccessMode>) -> bool
    ensures { result ≡ is_read_only access }
{
    match access {
        Some(AccessMode::ReadOnly) => true,
        _ => false,
    }
}
