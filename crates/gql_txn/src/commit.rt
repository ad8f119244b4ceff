//! Why a commit fails.

use gql_ports::KeepFault;
use gql_values3::OutOfMemory;

/// Why a commit kept nothing.
#[derive(Clone, Copy, Debug, PartialEq, Eq)]
pub enum CommitFault {
    /// The store failed.
    Store,
    OutOfMemory,
}

impl From<OutOfMemory> for CommitFault {
    ghost use Rattle.std.specs.Prelude.{◌≡◌};
    ghost use Rattle.gql_txn.specs.declared.commit.CommitFault.TheVariants.{OutOfMemory as NoMemory};

    ghost from_gives = { λ _ e. e ≡ NoMemory };

    fn from(_error: OutOfMemory) -> CommitFault {
        CommitFault::OutOfMemory
    }
}
