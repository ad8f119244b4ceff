//! How a MATCH ends without rows.

use gql_ast::DataFault;
use gql_values3::OutOfMemory;

/// Why a MATCH gives no rows.
#[derive(Clone, Copy, Debug, PartialEq, Eq)]
pub enum MatchFault {
    /// The final WHERE first faults at the combination of this place, from 0, and with this fault.
    Final { at: u64, fault: DataFault },
    OutOfMemory,
}

impl From<OutOfMemory> for MatchFault {
    ghost use Rattle.std.specs.Prelude.{◌≡◌};
    ghost use Rattle.gql_norm.specs.declared.match_fault.MatchFault.TheVariants.{OutOfMemory as NoMemory};

    ghost from_gives = { λ _ e. e ≡ NoMemory };

    fn from(_error: OutOfMemory) -> MatchFault {
        MatchFault::OutOfMemory
    }
}
