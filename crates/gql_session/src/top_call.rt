//! The top call of the program, and its promise.
ghost use Rattle.std.specs.Prelude.{◌≡◌, ◌≢◌, ◌≤◌, ◌<◌, ◌⊎◌, ℕ, List, Some, None, map, string_bytes, length, true};
ghost use Rattle.gql_ports.specs.Causes.{Rose};
ghost use Rattle.gql_ports.specs.Told.{Content};
ghost use Rattle.gql_ports.specs.declared.stored.Record.{Record as Stored};
ghost use Rattle.gql_graph.specs.Catalog.{CatalogData};
ghost use Rattle.gql_rowcode.specs.StandFor.{StandFor};
ghost use Rattle.gql_rowcode.specs.FirstBad.{FirstBad};
ghost use Rattle.gql_txn.specs.Keeps.{IsSameStore};
ghost use Rattle.gql_session.specs.Words.{command_of, selftest};
ghost use Rattle.gql_session.specs.RunEnds.{PortsTell, SessionTells, StoreTells, SourceTells, EndsAs, EndsAtFault, SourceEndsAs, most_bytes, is_before_reading, is_before_running, is_complete, source_count, sink_count, store_count};

use crate::session::run_command;
use crate::status::Status;
use crate::words::read_words;
use gql_graph::Graph;
use gql_machine::Tools;
use gql_ports::{Keeper, Sink, Source};
use gql_starts::Matcher;
use std::alloc::Global;

/// The top call: reads the words, opens the keeper under the store's name and loads its records, reads the source or
/// generates the text of a selftest, runs the session's statements one after another, their path patterns by the matcher,
/// keeps what they change, and writes each one's text to the sink by one `put`. Clauses with `..Tell` or `..Tells` speak
/// of ports that tell what they hold; the others hold of all ports.
pub fn run<M: Matcher<Graph>, S: Source, W: Sink, K: Keeper>(
    alloc: Global,
    matcher: &M,
    words: &Vec<String>,
    source: &mut S,
    sink: &mut W,
    keeper: &mut K,
) -> Status
    // What stands at the end is what the table of endings says of the status.
    ensures ends { (text before : List ℕ) (records : List Stored) → PortsTell (map string_bytes words.now.items) (S.told source.old) (W.written sink.old) (K.held keeper.old) text before records
        → EndsAs records text before (record { before = K.faults keeper.old; after = K.faults keeper.new }) result (W.written sink.new) (K.held keeper.new) }

    // Usage is the answer to words that are no command, of which nothing is done; each other ending has its cause. The
    // counts of faults of the source and of the sink rise where the ending names them, and nowhere else; so does the
    // store's where no statement was run. Behind a run `ends` tells the store's, of ports that tell: by each E22 too.
    ensures usage { result ≡ Status.Usage → command_of (map string_bytes words.now.items) ≡ None }
    ensures no_command { command_of (map string_bytes words.now.items) ≡ None → (result ≡ Status.Usage) ⊎ (result ≡ Status.NoMemory) }
    ensures idle { command_of (map string_bytes words.now.items) ≡ None → (S.told source.new ≡ S.told source.old) × (W.written sink.new ≡ W.written sink.old) × (K.held keeper.new ≡ K.held keeper.old) × (K.faults keeper.new ≡ K.faults keeper.old) }
    ensures source_fault { S.faults source.new ≡ source_count result (S.faults source.old) }
    ensures sink_fault { W.faults sink.new ≡ sink_count result (W.faults sink.old) }
    ensures store_fault { is_before_running result ≡ true → K.faults keeper.new ≡ store_count result (K.faults keeper.old) }
    ensures too_long { (text : List ℕ) → SessionTells (map string_bytes words.now.items) (S.told source.old) text → result ≡ Status.TooLong → most_bytes < length text }
    ensures bad_store { (records : List Stored) (i : ℕ) → StoreTells (map string_bytes words.now.items) (K.held keeper.old) records → result ≡ Status.BadStore i → FirstBad records i }

    // A selftest asks nothing of the source.
    ensures selftest { (n : ℕ) → command_of (map string_bytes words.now.items) ≡ Some (selftest n) → (S.told source.new ≡ S.told source.old) × (S.faults source.new ≡ S.faults source.old) × (result ≢ Status.TooLong) × (result ≢ Status.SourceFault) }

    // A command over records that are no catalog's runs no statement.
    ensures at_fault { (records : List Stored) (i : ℕ) → StoreTells (map string_bytes words.now.items) (K.held keeper.old) records → FirstBad records i → EndsAtFault i result }

    // Behind a whole reading nothing is left of the source, and behind another one what was not read; the keeper stays open
    // as the same store.
    ensures read { (c : Content) → SourceTells (map string_bytes words.now.items) (S.told source.old) c → SourceEndsAs c result (S.told source.new) }
    ensures same { (records : List Stored) → StoreTells (map string_bytes words.now.items) (K.held keeper.old) records → IsSameStore (K.held keeper.old) (K.held keeper.new) }

    // Before a statement is run the records stay, and nothing is written; before the source is opened no byte of it is taken.
    ensures stays { (records : List Stored) → StoreTells (map string_bytes words.now.items) (K.held keeper.old) records → is_before_running result ≡ true → K.held keeper.new ≡ K.held keeper.old }
    ensures untaken { is_before_reading result ≡ true → S.told source.new ≡ S.told source.old }
    ensures unwritten { is_before_running result ≡ true → W.written sink.new ≡ W.written sink.old }

    // Where nothing fails, the text is within its limit and the records are a catalog's, the whole text is run, unless
    // there is no memory.
    ensures complete { (text : List ℕ) (records : List Stored) (c : CatalogData) → SessionTells (map string_bytes words.now.items) (S.told source.old) text → StoreTells (map string_bytes words.now.items) (K.held keeper.old) records
        → StandFor records c → length text ≤ most_bytes → ¬ Rose (S.faults source.old) (S.faults source.new) → ¬ Rose (W.faults sink.old) (W.faults sink.new)
        → ¬ Rose (K.faults keeper.old) (K.faults keeper.new) → is_complete result ≡ true }
{
    let tools = Tools { alloc, matcher };
    match read_words(alloc, words) {
        Ok(None) => Status::Usage,
        Ok(Some(command)) => run_command(&tools, &command, source, sink, keeper),
        Err(_) => Status::NoMemory,
    }
}
