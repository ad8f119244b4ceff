//! How a run ends, and the number of each ending.
ghost use Rattle.std.specs.Prelude.{◌≡◌};
ghost use Rattle.gql_session.specs.Status.{number_of};

/// How a run ended.
#[derive(Clone, Copy, Debug, PartialEq, Eq)]
pub enum Status {
    /// The session was run to its end, and no statement was refused.
    Answered,
    /// The session was run to its end, and some statement was refused.
    Refused,
    /// The words are no command.
    Usage,
    /// The session's text could not be read.
    SourceFault,
    /// A text could not be written.
    SinkFault,
    /// The store could not be opened or read.
    StoreFault,
    /// There was no memory.
    NoMemory,
    /// The session's text has more bytes than a session may have.
    TooLong,
    /// The records of the store are no catalog's; the first one at fault, from 0.
    BadStore(u64),
}

/// The program's exit status, 0 to 8. It takes no memory.
pub fn code(status: &Status) -> u8
    ensures { result ≡ number_of status.now }
{
    match status {
        Status::Answered => 0,
        Status::Refused => 1,
        Status::Usage => 2,
        Status::SourceFault => 3,
        Status::SinkFault => 4,
        Status::StoreFault => 5,
        Status::NoMemory => 6,
        Status::TooLong => 7,
        Status::BadStore(_) => 8,
    }
}
