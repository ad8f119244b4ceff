//! The answer to one piece of a session.
ghost use Rattle.std.specs.Prelude.{◌≡◌, ◌<◌, ◌^◌, false, length, IfOk, OnOk};
ghost use Rattle.gql_machine.specs.Machinery.Meaning.{session_state, reading_of};
ghost use Rattle.gql_machine.specs.Machinery.CommitPoints.{MayLeave, Answers};

use crate::ended::Ended;
use crate::reading::{Read, read_piece};
use crate::state::Session;
use crate::statement::run_statement;
use crate::tools::Tools;
use gql_ast::{Outcome, Refusal};
use gql_graph::Graph;
use gql_starts::Matcher;
use gql_values3::OutOfMemory;

/// What the piece came to, or none where it is blank. Nothing is kept of it yet.
pub fn answer_piece<M: Matcher<Graph>>(
    tools: &Tools<M>,
    session: &mut Session,
    piece: &[u8],
) -> Result<Option<Ended>, OutOfMemory>
    requires short { length piece.now < 2 ^ 32 }
    requires goes_on { session.old.is_closed ≡ false }
    ensures answers { IfOk result (λ made. Answers (session_state session.old) piece.now made (session_state session.new)) }
    ensures kept { OnOk result (session.new.txn.kept ≡ session.old.txn.kept) }
{
    let read = read_piece(tools.alloc, piece)?;
    answer_read(tools, session, &read)
}

/// The same of a piece that reads so.
fn answer_read<M: Matcher<Graph>>(
    tools: &Tools<M>,
    session: &mut Session,
    read: &Read,
) -> Result<Option<Ended>, OutOfMemory>
    ensures leaves { IfOk result (λ made. MayLeave (session_state session.old) (reading_of read.now) made (session_state session.new)) }
    ensures kept { OnOk result (session.new.txn.kept ≡ session.old.txn.kept) }
{
    match read {
        Read::Blank => Ok(None),
        Read::Bad => Ok(Some(refused(Refusal::Lex))),
        Read::Deep => Ok(Some(refused(Refusal::Deep))),
        Read::Unread => Ok(Some(refused(Refusal::Syntax))),
        Read::Statement(statement) => {
            let end = run_statement(tools, session, statement)?;
            Ok(Some(end))
        }
    }
}

/// What a piece that is no statement comes to.
fn refused(refusal: Refusal) -> Ended
    ensures { result ≡ record { outcome = Outcome.Refused refusal; commits = false } }
{
    Ended {
        outcome: Outcome::Refused(refusal),
        commits: false,
    }
}
