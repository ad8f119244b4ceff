//! A commit point: what was changed is kept, or the store refuses.
ghost use Rattle.std.specs.Prelude.{◌≡◌, ◌≢◌, ◌≤◌, IfOk, OnErr, MatchResult};
ghost use Rattle.gql_text.specs.OutcomeText.{outcome_text};
ghost use Rattle.gql_txn.specs.Keeps.{Keeps, IsSameStore};
ghost use Rattle.gql_machine.specs.Machinery.Meaning.{session_state};
ghost use Rattle.gql_machine.specs.Machinery.CommitPoints.{CameTo};

use crate::state::Session;
use crate::text::write_text;
use gql_ast::{Outcome, Refusal};
use gql_ports::Keeper;
use gql_txn::{CommitFault, Txn};
use gql_values3::{Bytes, OutOfMemory};
use std::alloc::Global;

/// Keeps what was changed, and leaves the text in the buffer; or what was changed is lost, and E22 stands in the buffer. Ok tells
/// whether it is E22. Where memory runs out, the store has not failed.
pub fn keep_changes<K: Keeper>(
    alloc: Global,
    keeper: &mut K,
    session: &mut Session,
    text: &mut Bytes,
) -> Result<bool, OutOfMemory>
    ensures came_to { IfOk result (λ refused. CameTo (session_state session.old) text.old refused text.new (K.faults keeper.old) (K.faults keeper.new) (session_state session.new)) }
    ensures kept { Keeps (K.held keeper.old) session.old.txn.kept → MatchResult result (λ _. Keeps (K.held keeper.new) session.new.txn.kept) (λ _. Keeps (K.held keeper.new) session.old.txn.kept) }
    ensures same { IsSameStore (K.held keeper.old) (K.held keeper.new) }
    ensures later { K.faults keeper.old ≤ K.faults keeper.new }
    ensures unfailed { OnErr result (K.faults keeper.new ≡ K.faults keeper.old) }
{
    // Made before the commit, so that no want of memory comes behind one that failed.
    let refusal = store_refusal(alloc, &session.txn)?;
    match session.txn.commit(alloc, keeper) {
        Ok(()) => Ok(false),
        Err(CommitFault::Store) => {
            *text = refusal;
            Ok(true)
        }
        Err(CommitFault::OutOfMemory) => Err(OutOfMemory),
    }
}

/// The text of E22. Where nothing was changed none is made, since then the store isn't asked.
fn store_refusal(alloc: Global, txn: &Txn) -> Result<Bytes, OutOfMemory>
    ensures { txn.now.catalog ≢ txn.now.kept → IfOk result (λ text. text ≡ outcome_text (Outcome.Refused Refusal.Store)) }
{
    let mut text = Bytes::new(alloc);
    if txn.is_unchanged() {
        return Ok(text);
    }
    write_text(alloc, &Outcome::Refused(Refusal::Store), &mut text)?;
    Ok(text)
}
