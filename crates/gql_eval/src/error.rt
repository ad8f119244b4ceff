//! Why an expression has no value: its fault, or want of memory.

use gql_ast::DataFault;
use gql_values3::OutOfMemory;

/// Why there is no value.
#[derive(Clone, Copy, Debug, PartialEq, Eq)]
pub enum EvalError {
    /// The definition gives this fault.
    Fault(DataFault),
    /// There is no memory for the answer.
    OutOfMemory,
}

impl From<OutOfMemory> for EvalError {
    ghost use Rattle.std.specs.Prelude.{◌≡◌};
    ghost use Rattle.gql_eval.specs.declared.error.EvalError.TheVariants.{OutOfMemory as NoMemory};

    ghost from_gives = { λ _ e. e ≡ NoMemory };

    fn from(_error: OutOfMemory) -> EvalError {
        EvalError::OutOfMemory
    }
}

impl From<DataFault> for EvalError {
    ghost use Rattle.std.specs.Prelude.{◌≡◌};
    ghost use Rattle.gql_eval.specs.declared.error.EvalError.TheVariants.{Fault as OfFault};

    ghost from_gives = { λ fault e. e ≡ OfFault fault };

    fn from(fault: DataFault) -> EvalError {
        EvalError::Fault(fault)
    }
}
