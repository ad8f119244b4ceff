//! Why a node or an edge of an INSERT is not made: its numbers are used up, or there is no memory.

use crate::fault::ChangeFault;
use gql_ast::{ElemKind, Refusal};
use gql_values3::OutOfMemory;

/// Why an element cannot be made.
#[derive(Clone, Copy, Debug, PartialEq, Eq)]
pub enum MakingFault {
    /// The numbers of its sort are used up.
    Full(ElemKind),
    OutOfMemory,
}

impl From<OutOfMemory> for MakingFault {
    ghost use Rattle.std.specs.Prelude.{◌≡◌};
    ghost use Rattle.gql_change.specs.declared.making_fault.MakingFault.TheVariants.{OutOfMemory as NoMemory};

    ghost from_gives = { λ _ fault. fault ≡ NoMemory };

    fn from(_error: OutOfMemory) -> MakingFault {
        MakingFault::OutOfMemory
    }
}

impl From<MakingFault> for ChangeFault {
    ghost use Rattle.std.specs.Prelude.{◌≡◌};
    ghost use Rattle.gql_change.specs.Machinery.Makes.{fault_of_making};

    ghost from_gives = { λ error fault. fault ≡ fault_of_making error };

    fn from(error: MakingFault) -> ChangeFault {
        match error {
            MakingFault::Full(kind) => ChangeFault::Refused(Refusal::Full(kind)),
            MakingFault::OutOfMemory => ChangeFault::OutOfMemory,
        }
    }
}
