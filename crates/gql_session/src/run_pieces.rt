//! The pieces of a text, one after another.
ghost use Rattle.std.specs.Prelude.{◌≡◌, ℕ, ◌<◌, ◌≤◌, ◌^◌, false, List, length, Some};
ghost use Rattle.gql_ports.specs.Causes.{Rose};
ghost use Rattle.gql_txn.specs.TxnData.{settled};
ghost use Rattle.gql_txn.specs.Keeps.{IsSameStore};
ghost use Rattle.gql_machine.specs.SessionState.{starting};
ghost use Rattle.gql_machine.specs.Machinery.Meaning.{session_state};
ghost use Rattle.gql_session.specs.RunEnds.{most_bytes};
ghost use Rattle.gql_session.specs.Machinery.TextEndings.{PieceEnding, TextEnding, after_running};

use gql_graph::Graph;
use gql_lexer::pieces;
use gql_machine::{Session, Tools, run_piece};
use gql_ports::{Keeper, Sink};
use gql_starts::Matcher;
use gql_txn::Txn;
use gql_values3::Bytes;

/// Why the run of a text ended early: a text could not be written, or there was no memory.
#[derive(Clone, Copy, Debug, PartialEq, Eq)]
pub enum RunFault {
    Sink,
    OutOfMemory,
}

/// Runs the pieces of a text one after another, and writes each outcome's text by one `put`. What stands behind a
/// SESSION CLOSE that was answered isn't looked at. Ok tells whether some statement was refused.
pub fn run_pieces<M: Matcher<Graph>, W: Sink, K: Keeper>(
    tools: &Tools<M>,
    txn: Txn,
    text: &[u8],
    sink: &mut W,
    keeper: &mut K,
) -> Result<bool, RunFault>
    requires within { length text.now ≤ most_bytes }
    requires settled { txn ≡ settled txn.catalog }
    ensures told { (before : List ℕ) → W.written sink.old ≡ Some before
        → TextEnding (starting txn.catalog) text.now before (record { before = K.faults keeper.old; after = K.faults keeper.new }) (K.held keeper.old) result (W.written sink.new) (K.held keeper.new) }
    ensures same { IsSameStore (K.held keeper.old) (K.held keeper.new) }
    ensures later { W.faults sink.old ≤ W.faults sink.new }
    ensures failed { result ≡ Err RunFault.Sink → Rose (W.faults sink.old) (W.faults sink.new) }
    ensures risen { W.faults sink.new ≡ after_running result (W.faults sink.old) }
{
    let Ok(all) = pieces(tools.alloc, text) else {
        return Err(RunFault::OutOfMemory);
    };
    let Ok(mut session) = Session::new(tools.alloc, txn) else {
        return Err(RunFault::OutOfMemory);
    };
    let mut buffer = Bytes::new(tools.alloc);
    let mut refused = false;
    for piece in all.as_slice() {
        if session.is_closed {
            return Ok(refused);
        }
        let bytes = piece.bytes.as_slice();
        let piece_refused = match write_piece(
            tools,
            &mut session,
            bytes,
            &mut buffer,
            sink,
            keeper,
        ) {
            Ok(piece_refused) => piece_refused,
            Err(fault) => return Err(fault),
        };
        refused = refused | piece_refused;
    }
    Ok(refused)
}

/// Runs one piece, writes its outcome's text by way of the buffer, whose bytes are lost, and tells whether it is a refusal.
fn write_piece<M: Matcher<Graph>, W: Sink, K: Keeper>(
    tools: &Tools<M>,
    session: &mut Session,
    piece: &[u8],
    buffer: &mut Bytes,
    sink: &mut W,
    keeper: &mut K,
) -> Result<bool, RunFault>
    requires short { length piece.now < 2 ^ 32 }
    requires goes_on { session.old.is_closed ≡ false }
    ensures told { (before : List ℕ) → W.written sink.old ≡ Some before
        → PieceEnding (session_state session.old) piece.now before (record { before = K.faults keeper.old; after = K.faults keeper.new }) (K.held keeper.old) result (session_state session.new) (W.written sink.new) (K.held keeper.new) }
    ensures same { IsSameStore (K.held keeper.old) (K.held keeper.new) }
    ensures later { W.faults sink.old ≤ W.faults sink.new }
    ensures failed { result ≡ Err RunFault.Sink → Rose (W.faults sink.old) (W.faults sink.new) }
    ensures risen { W.faults sink.new ≡ after_running result (W.faults sink.old) }
{
    match run_piece(tools, keeper, session, piece, buffer) {
        Err(_) => Err(RunFault::OutOfMemory),
        Ok(refused) => {
            if buffer.is_empty() {
                return Ok(refused);
            }
            match sink.put(buffer.as_slice()) {
                Ok(()) => Ok(refused),
                Err(_) => Err(RunFault::Sink),
            }
        }
    }
}
