//! Why a statement is not let through.

ghost use Rattle.std.specs.Prelude.{◌≡◌};
ghost use Rattle.gql_expr_checks.specs.declared.fault.ScopeFault.TheVariants.{OutOfMemory as NoMemory};

use gql_ast::Refusal;
use gql_values3::OutOfMemory;

/// Why a statement is not let through.
#[derive(Debug, Drop)]
pub enum ScopeFault {
    /// It is refused.
    Defect(Refusal),
    /// There is no memory for the check.
    OutOfMemory,
}

impl From<OutOfMemory> for ScopeFault {
    ghost from_gives = { λ _ e. e ≡ NoMemory };

    fn from(_error: OutOfMemory) -> ScopeFault {
        ScopeFault::OutOfMemory
    }
}
