//! Why a clause that changes data is refused, and how causes from below become its causes.

use gql_ast::Refusal;
use gql_eval::EvalError;
use gql_values3::OutOfMemory;

/// Why a change of data has no plan.
#[derive(Debug, Drop)]
pub enum ChangeFault {
    /// A data fault (E18), an edge that would be left without its node (E20), two values for one property (E21), or
    /// numbers that are used up (E24).
    Refused(Refusal),
    OutOfMemory,
}

impl From<EvalError> for ChangeFault {
    ghost use Rattle.std.specs.Prelude.{◌≡◌};
    ghost use Rattle.gql_change.specs.Plans.{change_fault};

    ghost from_gives = { λ error fault. fault ≡ change_fault error };

    fn from(error: EvalError) -> ChangeFault {
        match error {
            EvalError::Fault(fault) => ChangeFault::Refused(Refusal::Fault(fault)),
            EvalError::OutOfMemory => ChangeFault::OutOfMemory,
        }
    }
}

impl From<OutOfMemory> for ChangeFault {
    ghost use Rattle.std.specs.Prelude.{◌≡◌};
    ghost use Rattle.gql_change.specs.declared.fault.ChangeFault.TheVariants.{OutOfMemory as NoMemory};

    ghost from_gives = { λ _ fault. fault ≡ NoMemory };

    fn from(_error: OutOfMemory) -> ChangeFault {
        ChangeFault::OutOfMemory
    }
}
