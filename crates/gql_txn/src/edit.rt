//! Why a graph of a catalog is not replaced.

use gql_type::Misfit;
use gql_values3::OutOfMemory;

/// Why a graph did not take the place of another.
#[derive(Clone, Copy, Debug, PartialEq, Eq)]
pub enum EditFault {
    /// The graph has a type, and this is its first element that fits none of it.
    Misfit(Misfit),
    OutOfMemory,
}

impl From<OutOfMemory> for EditFault {
    ghost use Rattle.std.specs.Prelude.{◌≡◌};
    ghost use Rattle.gql_txn.specs.declared.edit.EditFault.TheVariants.{OutOfMemory as NoMemory};

    ghost from_gives = { λ _ e. e ≡ NoMemory };

    fn from(_error: OutOfMemory) -> EditFault {
        EditFault::OutOfMemory
    }
}
