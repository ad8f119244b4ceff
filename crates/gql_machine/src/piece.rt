//! One piece of a session, from its bytes to its text.
ghost use Rattle.std.specs.Prelude.{◌≡◌, ◌<◌, ◌≤◌, ◌^◌, ℕ, List, Some, false, length, IfOk, OnErr, MatchResult};
ghost use Rattle.gql_txn.specs.Keeps.{Keeps, IsSameStore};
ghost use Rattle.gql_machine.specs.SessionState.{SessionState};
ghost use Rattle.gql_machine.specs.PieceRun.{RanPiece};
ghost use Rattle.gql_machine.specs.Machinery.Meaning.{session_state};
ghost use Rattle.gql_machine.specs.Machinery.CommitPoints.{Answers};

use crate::answer::answer_piece;
use crate::commit::keep_changes;
use crate::ended::{Ended, is_refusal};
use crate::state::Session;
use crate::text::{clear, write_text};
use crate::tools::Tools;
use gql_graph::Graph;
use gql_ports::Keeper;
use gql_starts::Matcher;
use gql_values3::{Bytes, OutOfMemory};
use std::alloc::Global;

/// Runs one piece, leaves its outcome's text (nothing for a blank piece) in the buffer, whose bytes are lost, and keeps what was
/// changed. Ok tells whether it is a refusal.
pub fn run_piece<M: Matcher<Graph>, K: Keeper>(
    tools: &Tools<M>,
    keeper: &mut K,
    session: &mut Session,
    piece: &[u8],
    text: &mut Bytes,
) -> Result<bool, OutOfMemory>
    requires short { length piece.now < 2 ^ 32 }
    requires goes_on { session.old.is_closed ≡ false }

    // The piece was one step of the machine, and its text is that of the step's outcome.
    ensures ran { IfOk result (λ refused. RanPiece (session_state session.old) piece.now refused text.new (K.faults keeper.old) (K.faults keeper.new) (session_state session.new)) }

    // The store keeps what the machine keeps; where memory runs out, what was kept before the piece, and it has not failed.
    ensures kept { Keeps (K.held keeper.old) session.old.txn.kept → MatchResult result (λ _. Keeps (K.held keeper.new) session.new.txn.kept) (λ _. Keeps (K.held keeper.new) session.old.txn.kept) }
    ensures same { IsSameStore (K.held keeper.old) (K.held keeper.new) }
    ensures later { K.faults keeper.old ≤ K.faults keeper.new }
    ensures unfailed { OnErr result (K.faults keeper.new ≡ K.faults keeper.old) }
{
    clear(tools.alloc, text);
    match answer_piece(tools, session, piece)? {
        None => Ok(false),
        Some(end) => finish(tools.alloc, keeper, session, &end, text),
    }
}

/// Makes the text of what a piece came to, and keeps what was changed where a commit point is behind it.
fn finish<K: Keeper>(
    alloc: Global,
    keeper: &mut K,
    session: &mut Session,
    end: &Ended,
    text: &mut Bytes,
) -> Result<bool, OutOfMemory>
    ensures ran { (before : SessionState) (piece : List ℕ) → Answers before piece (Some end.now) (session_state session.old) → IfOk result (λ refused. RanPiece before piece refused text.new (K.faults keeper.old) (K.faults keeper.new) (session_state session.new)) }
    ensures kept { Keeps (K.held keeper.old) session.old.txn.kept → MatchResult result (λ _. Keeps (K.held keeper.new) session.new.txn.kept) (λ _. Keeps (K.held keeper.new) session.old.txn.kept) }
    ensures same { IsSameStore (K.held keeper.old) (K.held keeper.new) }
    ensures later { K.faults keeper.old ≤ K.faults keeper.new }
    ensures unfailed { OnErr result (K.faults keeper.new ≡ K.faults keeper.old) }
{
    write_text(alloc, &end.outcome, text)?;
    if end.commits {
        keep_changes(alloc, keeper, session, text)
    } else {
        Ok(is_refusal(&end.outcome))
    }
}
