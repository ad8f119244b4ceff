//! What the ports answer where something failed.

use gql_values3::OutOfMemory;

/// The real thing failed: a file, a terminal, a store.
#[derive(Clone, Copy, Debug, PartialEq, Eq)]
pub struct Failed;

/// Why a keeper refused: the real thing failed, or there was no memory.
#[derive(Clone, Copy, Debug, PartialEq, Eq)]
pub enum KeepFault {
    Failed,
    OutOfMemory,
}

impl From<OutOfMemory> for KeepFault {
    ghost use Rattle.std.specs.Prelude.{◌≡◌};
    ghost use Rattle.gql_ports.specs.declared.fault.KeepFault.TheVariants.{OutOfMemory as NoMemory};

    ghost from_gives = { λ _ e. e ≡ NoMemory };

    fn from(_error: OutOfMemory) -> KeepFault {
        KeepFault::OutOfMemory
    }
}
