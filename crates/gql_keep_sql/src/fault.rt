//! The refusals of SQLite, and what the keeper answers for them.

ghost use Rattle.std.specs.Prelude.{◌≡◌, ◌≤◌, ◌↔◌, IfOk, Ok, Err, is_ok};
ghost use Rattle.sqlite.specs.declared.error.ErrorCode.TheVariants.{OutOfMemory as NoMemoryCode};
ghost use Rattle.sqlite.specs.declared.error.Error.TheVariants.{SqliteFailure};
ghost use Rattle.gql_ports.specs.declared.fault.KeepFault.TheVariants.{OutOfMemory as NoMemory};
ghost use Rattle.gql_ports.specs.Causes.{count_after};

use gql_ports::KeepFault;
use sqlite::{Error, ErrorCode};

/// Want of memory, as SQLite tells it.
pub const NO_MEMORY: Error = Error::SqliteFailure(ErrorCode::OutOfMemory);

/// The database is another one than a store, or holds what no keeper wrote.
pub const NOT_A_STORE: Error = Error::SqliteFailure(ErrorCode::NotADatabase);

/// Nothing was opened, or the disk failed before.
pub const CLOSED: Error = Error::SqliteFailure(ErrorCode::Closed);

/// What the keeper answers: each refusal but want of memory is a failure.
pub fn fault_of(error: Error) -> KeepFault
    ensures { result ≡ NoMemory ↔ error ≡ SqliteFailure NoMemoryCode }
{
    if error == NO_MEMORY {
        KeepFault::OutOfMemory
    } else {
        KeepFault::Failed
    }
}

/// What the keeper answers, with each failure counted.
pub fn counted<T>(faults: &mut u64, answer: Result<T, Error>) -> Result<T, KeepFault>
    ensures ok { IfOk result (λ x. answer ≡ Ok x) }
    ensures same { is_ok result ≡ is_ok answer }
    ensures memory { result ≡ Err NoMemory ↔ answer ≡ Err (SqliteFailure NoMemoryCode) }
    ensures counted { faults.new ≡ count_after result faults.old }
    ensures later { faults.old ≤ faults.new }
{
    match answer {
        Ok(value) => Ok(value),
        Err(error) => {
            let fault = fault_of(error);
            if fault == KeepFault::Failed {
                *faults = faults.saturating_add(1);
            }
            Err(fault)
        }
    }
}
