//! What a statement came to, before anything is kept of it.
ghost use Rattle.std.specs.Prelude.{◌≡◌, ◌&&◌, not, is_some};
ghost use Rattle.gql_machine.specs.Outcomes.{is_refusal};

use gql_ast::Outcome;
use gql_txn::Txn;

/// The outcome of a statement, and whether a commit point is behind it.
#[derive(Debug, Drop)]
pub struct Ended {
    pub outcome: Outcome,
    pub commits: bool,
}

/// The end with that outcome. A commit point is behind what was answered where no transaction is open.
pub fn end_with(outcome: Outcome, txn: &Txn) -> Ended
    ensures outcome { result.outcome ≡ outcome }
    ensures commits { result.commits ≡ (not (is_refusal outcome) && not (is_some txn.now.access)) }
{
    let commits = !is_refusal(&outcome) & !txn.access().is_some();
    Ended { outcome, commits }
}

/// Whether the outcome is a refusal.
pub fn is_refusal(outcome: &Outcome) -> bool
    ensures { result ≡ is_refusal outcome.now }
{
    match outcome {
        Outcome::Refused(_) => true,
        Outcome::Done | Outcome::Table(_) => false,
    }
}
