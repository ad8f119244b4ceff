//! What a session keeps between its statements.
ghost use Rattle.std.specs.Prelude.{◌≡◌, IfOk};
ghost use Rattle.gql_txn.specs.TxnData.{settled};
ghost use Rattle.gql_machine.specs.SessionState.{starting};
ghost use Rattle.gql_machine.specs.Machinery.Meaning.{session_state};

use gql_txn::Txn;
use gql_values3::{OutOfMemory, Params, Text};
use std::alloc::Global;

/// What a session keeps from one statement to the next.
#[derive(Debug, Drop)]
pub struct Session {
    /// The catalog as the statements so far left it, as it is kept, and the open transaction.
    pub txn: Txn,
    /// The name of the current graph.
    pub graph: Text,
    /// The parameters that are set, each once.
    pub parameters: Params,
    /// Whether SESSION CLOSE was answered: what follows isn't looked at.
    pub is_closed: bool,
}

impl Session {
    /// A session at its start, over a catalog that is kept as it is.
    pub fn new(alloc: Global, txn: Txn) -> Result<Session, OutOfMemory>
        requires { txn ≡ settled txn.catalog }
        ensures { IfOk result (λ s. session_state s ≡ starting txn.catalog) }
    {
        Ok(Session {
            txn,
            graph: Text::from_str(alloc, "home")?,
            parameters: Params::new(alloc),
            is_closed: false,
        })
    }
}
