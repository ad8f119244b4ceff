//! Why there are no lexemes.

/// Why there are no lexemes.
#[derive(Clone, Copy, Debug, PartialEq, Eq)]
pub enum LexFault {
    /// One of the lexemes is bad.
    Bad,
    /// There is no memory for the answer.
    OutOfMemory,
}

impl From<gql_values3::OutOfMemory> for LexFault {
    ghost use Rattle.std.specs.Prelude.{◌≡◌};
    ghost use Rattle.gql_lexer.specs.declared.fault.LexFault.TheVariants.{OutOfMemory};

    ghost from_gives = { λ _ e. e ≡ OutOfMemory };

    fn from(_error: gql_values3::OutOfMemory) -> LexFault {
        LexFault::OutOfMemory
    }
}

impl From<std::alloc::AllocError> for LexFault {
    ghost use Rattle.std.specs.Prelude.{◌≡◌};
    ghost use Rattle.gql_lexer.specs.declared.fault.LexFault.TheVariants.{OutOfMemory};

    ghost from_gives = { λ _ e. e ≡ OutOfMemory };

    fn from(_error: std::alloc::AllocError) -> LexFault {
        LexFault::OutOfMemory
    }
}
