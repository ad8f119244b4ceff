//! What a query is answered with, or why it has no answer.

use gql_ast::Refusal;
use gql_change::ChangeFault;
use gql_eval::EvalError;
use gql_norm::MatchFault;
use gql_values3::{OutOfMemory, Table};

/// What a query is answered with.
#[derive(Debug, Drop)]
pub struct Answer {
    /// The rows of its RETURN; none for a query that ends in a change of data.
    pub table: Option<Table>,
}

/// Why a query has no answer.
#[derive(Debug, Drop)]
pub enum RunFault {
    /// A clause met a data fault (E18), or a change an edge that would be left without its node (E20), two values for one
    /// property (E21), or numbers that are used up (E24).
    Refused(Refusal),
    OutOfMemory,
}

impl From<EvalError> for RunFault {
    ghost use Rattle.std.specs.Prelude.{◌≡◌};
    ghost use Rattle.gql_linear.specs.Causes.{run_fault};

    ghost from_gives = { λ error fault. fault ≡ run_fault error };

    fn from(error: EvalError) -> RunFault {
        match error {
            EvalError::Fault(fault) => RunFault::Refused(Refusal::Fault(fault)),
            EvalError::OutOfMemory => RunFault::OutOfMemory,
        }
    }
}

impl From<MatchFault> for RunFault {
    ghost use Rattle.std.specs.Prelude.{◌≡◌};
    ghost use Rattle.gql_linear.specs.Causes.{match_fault};

    ghost from_gives = { λ error fault. fault ≡ match_fault error };

    fn from(error: MatchFault) -> RunFault {
        match error {
            MatchFault::Final { fault, .. } => RunFault::Refused(Refusal::Fault(fault)),
            MatchFault::OutOfMemory => RunFault::OutOfMemory,
        }
    }
}

impl From<ChangeFault> for RunFault {
    ghost use Rattle.std.specs.Prelude.{◌≡◌};
    ghost use Rattle.gql_linear.specs.Causes.{refused_change};

    ghost from_gives = { λ error fault. fault ≡ refused_change error };

    fn from(error: ChangeFault) -> RunFault {
        match error {
            ChangeFault::Refused(refusal) => RunFault::Refused(refusal),
            ChangeFault::OutOfMemory => RunFault::OutOfMemory,
        }
    }
}

impl From<OutOfMemory> for RunFault {
    ghost use Rattle.std.specs.Prelude.{◌≡◌};
    ghost use Rattle.gql_linear.specs.declared.answer.RunFault.TheVariants.{OutOfMemory as NoMemory};

    ghost from_gives = { λ _ fault. fault ≡ NoMemory };

    fn from(_error: OutOfMemory) -> RunFault {
        RunFault::OutOfMemory
    }
}
