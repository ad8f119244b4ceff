//! Why bytes were not read.

use gql_values3::OutOfMemory;

/// Why bytes were not read: they spell nothing that is known here, or there is no memory.
#[derive(Clone, Copy, Debug, PartialEq, Eq)]
pub enum Misread {
    OutOfMemory,
    NoForm,
}

impl From<OutOfMemory> for Misread {
    ghost use Rattle.std.specs.Prelude.{◌≡◌};
    ghost use Rattle.gql_fields.specs.declared.misread.Misread.TheVariants.{OutOfMemory as NoMemory};

    ghost from_gives = { λ _ e. e ≡ NoMemory };

    fn from(_error: OutOfMemory) -> Misread {
        Misread::OutOfMemory
    }
}
