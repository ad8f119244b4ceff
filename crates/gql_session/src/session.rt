//! The run of a command: its store's catalog is loaded, its text is read, and its pieces are run.
ghost use Rattle.std.specs.Prelude.{◌≡◌, ◌≢◌, ◌≤◌, ◌<◌, ℕ, List, Some, true, false, length};
ghost use Rattle.std.specs.Option.{option_copied};
ghost use Rattle.gql_ports.specs.Told.{Content};
ghost use Rattle.gql_ports.specs.declared.stored.Record.{Record as Stored};
ghost use Rattle.gql_graph.specs.Catalog.{CatalogData};
ghost use Rattle.gql_rowcode.specs.StandFor.{StandFor};
ghost use Rattle.gql_rowcode.specs.FirstBad.{FirstBad};
ghost use Rattle.gql_txn.specs.TxnData.{settled};
ghost use Rattle.gql_txn.specs.Keeps.{IsSameStore};
ghost use Rattle.gql_machine.specs.SessionState.{starting};
ghost use Rattle.gql_session.specs.Words.{selftest, store_of, session_of};
ghost use Rattle.gql_session.specs.RunEnds.{IsTextOf, EndsAs, EndsAtFault, SourceEndsAs, most_bytes, is_before_reading, is_before_running, source_count, sink_count, store_count};
ghost use Rattle.gql_session.specs.Machinery.Seen.{seen};
ghost use Rattle.gql_session.specs.Machinery.TextEndings.{status_of, LoadedEndsAs};

use crate::command_text::text_of;
use crate::load::load_store;
use crate::read_text::TextFault;
use crate::run_pieces::{RunFault, run_pieces};
use crate::status::Status;
use crate::words::Command;
use gql_graph::Graph;
use gql_machine::Tools;
use gql_ports::{Keeper, Sink, Source};
use gql_starts::Matcher;
use gql_txn::{LoadFault, Txn};

/// Runs the command's session over the catalog that the records of its store stand for.
pub fn run_command<M: Matcher<Graph>, S: Source, W: Sink, K: Keeper>(
    tools: &Tools<M>,
    command: &Command<'_>,
    source: &mut S,
    sink: &mut W,
    keeper: &mut K,
) -> Status
    ensures ends { (text before : List ℕ) (records : List Stored) → IsTextOf (seen command.now) (S.told source.old) text → W.written sink.old ≡ Some before
        → K.held keeper.old ≡ Some (record { name = store_of (seen command.now); records = records })
        → EndsAs records text before (record { before = K.faults keeper.old; after = K.faults keeper.new }) result (W.written sink.new) (K.held keeper.new) }
    ensures at_fault { (records : List Stored) (i : ℕ) → K.held keeper.old ≡ Some (record { name = store_of (seen command.now); records = records }) → FirstBad records i → EndsAtFault i result }
    ensures stays { (records : List Stored) → K.held keeper.old ≡ Some (record { name = store_of (seen command.now); records = records }) → is_before_running result ≡ true → K.held keeper.new ≡ K.held keeper.old }
    ensures same { (records : List Stored) → K.held keeper.old ≡ Some (record { name = store_of (seen command.now); records = records }) → IsSameStore (K.held keeper.old) (K.held keeper.new) }
    ensures stands { (records : List Stored) (c : CatalogData) (i : ℕ) → K.held keeper.old ≡ Some (record { name = store_of (seen command.now); records = records }) → StandFor records c → ¬ (result ≡ Status.BadStore i) }
    ensures too_long { (text : List ℕ) → IsTextOf (seen command.now) (S.told source.old) text → result ≡ Status.TooLong → most_bytes < length text }
    ensures bad_store { (records : List Stored) (i : ℕ) → K.held keeper.old ≡ Some (record { name = store_of (seen command.now); records = records }) → result ≡ Status.BadStore i → FirstBad records i }
    ensures selftest { (n : ℕ) → seen command.now ≡ selftest n → (S.told source.new ≡ S.told source.old) × (S.faults source.new ≡ S.faults source.old) × (result ≢ Status.TooLong) × (result ≢ Status.SourceFault) }
    ensures read { (c : Content) → session_of (seen command.now) ≡ Some c.name → S.told source.old ≡ Some c → SourceEndsAs c result (S.told source.new) }
    ensures untaken { is_before_reading result ≡ true → S.told source.new ≡ S.told source.old }
    ensures unwritten { is_before_running result ≡ true → W.written sink.new ≡ W.written sink.old }
    ensures is_command { ¬ (result ≡ Status.Usage) }
    ensures source_fault { S.faults source.new ≡ source_count result (S.faults source.old) }
    ensures sink_fault { W.faults sink.new ≡ sink_count result (W.faults sink.old) }
    ensures store_fault { is_before_running result ≡ true → K.faults keeper.new ≡ store_count result (K.faults keeper.old) }
{
    match load_store(tools.alloc, store_of(command), keeper) {
        Ok(txn) => run_loaded(tools, command, txn, source, sink, keeper),
        Err(LoadFault::Failed) => Status::StoreFault,
        Err(LoadFault::BadRecord(index)) => Status::BadStore(index),
        Err(LoadFault::OutOfMemory) => Status::NoMemory,
    }
}

/// The name of the command's store.
fn store_of<'a>(command: &Command<'a>) -> Option<&'a str>
    ensures { option_copied result ≡ store_of (seen command.now) }
{
    match command {
        Command::Run(words) => words.store,
        Command::Selftest(_) => None,
    }
}

/// Reads the command's session, and runs it over the catalog.
fn run_loaded<M: Matcher<Graph>, S: Source, W: Sink, K: Keeper>(
    tools: &Tools<M>,
    command: &Command<'_>,
    txn: Txn,
    source: &mut S,
    sink: &mut W,
    keeper: &mut K,
) -> Status
    requires settled { txn ≡ settled txn.catalog }
    ensures ends { (text before : List ℕ) → IsTextOf (seen command.now) (S.told source.old) text → W.written sink.old ≡ Some before
        → LoadedEndsAs (starting txn.catalog) text before (record { before = K.faults keeper.old; after = K.faults keeper.new }) (K.held keeper.old) result (W.written sink.new) (K.held keeper.new) }
    ensures same { IsSameStore (K.held keeper.old) (K.held keeper.new) }
    ensures loaded { is_before_reading result ≡ false }
    ensures stays { is_before_running result ≡ true → K.held keeper.new ≡ K.held keeper.old }
    ensures unfailed { is_before_running result ≡ true → K.faults keeper.new ≡ K.faults keeper.old }
    ensures read { (c : Content) → session_of (seen command.now) ≡ Some c.name → S.told source.old ≡ Some c → SourceEndsAs c result (S.told source.new) }
    ensures too_long { (text : List ℕ) → IsTextOf (seen command.now) (S.told source.old) text → result ≡ Status.TooLong → most_bytes < length text }
    ensures selftest { (n : ℕ) → seen command.now ≡ selftest n → (S.told source.new ≡ S.told source.old) × (S.faults source.new ≡ S.faults source.old) × (result ≢ Status.TooLong) × (result ≢ Status.SourceFault) }
    ensures unwritten { is_before_running result ≡ true → W.written sink.new ≡ W.written sink.old }
    ensures source_fault { S.faults source.new ≡ source_count result (S.faults source.old) }
    ensures sink_fault { W.faults sink.new ≡ sink_count result (W.faults sink.old) }
{
    match text_of(tools.alloc, command, source) {
        Ok(text) => status_of(run_pieces(tools, txn, text.as_slice(), sink, keeper)),
        Err(TextFault::Failed) => Status::SourceFault,
        Err(TextFault::TooLong) => Status::TooLong,
        Err(TextFault::OutOfMemory) => Status::NoMemory,
    }
}

/// How a run ends by how the run of its text did.
fn status_of(ran: Result<bool, RunFault>) -> Status
    ensures { result ≡ status_of ran }
{
    match ran {
        Ok(false) => Status::Answered,
        Ok(true) => Status::Refused,
        Err(RunFault::Sink) => Status::SinkFault,
        Err(RunFault::OutOfMemory) => Status::NoMemory,
    }
}
