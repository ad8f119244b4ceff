//! The catalog for which the kept records stand.
ghost use Rattle.std.specs.Prelude.{◌≡◌, ◌≢◌, ◌≤◌, ◌++◌, [], ◌∷◌, ℕ, Some, IfOk, IfErr, OnOk, MatchResult, ◌⊎◌, IsTrue};
ghost use Rattle.gql_ports.specs.Causes.{Rose, count_after};
ghost use Rattle.gql_ports.specs.Held.{Holding};
ghost use Rattle.gql_graph.specs.Catalog.{CatalogData};
ghost use Rattle.gql_type.specs.SoundCatalog.{is_sound};
ghost use Rattle.gql_rowcode.specs.StandFor.{StandFor};
ghost use Rattle.gql_rowcode.specs.FirstBad.{FirstBad};
ghost use Rattle.gql_txn.specs.Faults.{after_loading};
ghost use Rattle.gql_txn.specs.Loads.{LoadCause, is_lack};

use gql_graph::Catalog;
use gql_ports::{KeepFault, Keeper, Record};
use gql_rowcode::{ReadFault, read};
use std::alloc::Global;

/// Why no catalog was loaded.
#[derive(Clone, Copy, Debug, PartialEq, Eq)]
pub enum LoadFault {
    /// The store failed.
    Failed,
    /// The records are no catalog's; the first one at fault, from 0.
    BadRecord(u64),
    OutOfMemory,
}

impl From<KeepFault> for LoadFault {
    ghost use Rattle.gql_txn.specs.Loads.{keep_fault_gives};

    ghost from_gives = { keep_fault_gives };

    fn from(fault: KeepFault) -> LoadFault {
        match fault {
            KeepFault::Failed => LoadFault::Failed,
            KeepFault::OutOfMemory => LoadFault::OutOfMemory,
        }
    }
}

/// Fetches all the records of a store that is open, and reads them as a catalog.
pub fn load_opened<K: Keeper>(alloc: Global, keeper: &mut K) -> Result<Catalog, LoadFault>
    ensures sound { IfOk result (λ c. IsTrue (is_sound c)) }
    ensures found { (h : Holding) → K.held keeper.old ≡ Some h → MatchResult result (λ c. StandFor h.records c) (LoadCause h.records) }
    ensures at_fault { (h : Holding) (i : ℕ) → K.held keeper.old ≡ Some h → FirstBad h.records i → MatchResult result (λ _. ⊥) (λ e. (e ≡ LoadFault.BadRecord i) ⊎ IsTrue (is_lack e)) }
    ensures complete { (h : Holding) (c : CatalogData) → K.held keeper.old ≡ Some h → StandFor h.records c → MatchResult result (λ d. d ≡ c) (λ e. IsTrue (is_lack e)) }
    ensures kept { K.held keeper.new ≡ K.held keeper.old }
    ensures later { K.faults keeper.old ≤ K.faults keeper.new }
    ensures failed { result ≡ Err LoadFault.Failed → Rose (K.faults keeper.old) (K.faults keeper.new) }
    ensures risen { K.faults keeper.new ≡ after_loading result (K.faults keeper.old) }
{
    match fetch_all(alloc, keeper) {
        Ok(records) => read_records(alloc, records.as_slice()),
        Err(fault) => Err(LoadFault::from(fault)),
    }
}

/// Reads the records as a catalog.
fn read_records(alloc: Global, records: &[Record]) -> Result<Catalog, LoadFault>
    ensures found { MatchResult result (λ c. StandFor records.now c) (LoadCause records.now) }
    ensures at_fault { (i : ℕ) → FirstBad records.now i → MatchResult result (λ _. ⊥) (λ e. (e ≡ LoadFault.BadRecord i) ⊎ IsTrue (is_lack e)) }
    ensures complete { (c : CatalogData) → StandFor records.now c → MatchResult result (λ d. d ≡ c) (λ e. IsTrue (is_lack e)) }
    ensures read { result ≢ Err LoadFault.Failed }
{
    match read(alloc, records) {
        Ok(catalog) => Ok(catalog),
        Err(ReadFault::BadRecord(index)) => Err(LoadFault::BadRecord(index)),
        Err(ReadFault::OutOfMemory) => Err(LoadFault::OutOfMemory),
    }
}

/// All the records, in their order.
fn fetch_all<K: Keeper>(alloc: Global, keeper: &mut K) -> Result<Vec<Record>, KeepFault>
    ensures all { (h : Holding) → K.held keeper.old ≡ Some h → IfOk result (λ records. records.items ≡ h.records) }
    ensures kept { K.held keeper.new ≡ K.held keeper.old }
    ensures later { K.faults keeper.old ≤ K.faults keeper.new }
    ensures failed { result ≡ Err KeepFault.Failed → Rose (K.faults keeper.old) (K.faults keeper.new) }
    ensures risen { K.faults keeper.new ≡ count_after result (K.faults keeper.old) }
{
    let mut records = Vec::new(alloc);
    for index in 0..keeper.len() {
        let found = keeper.fetch(alloc, index)?;
        push_record(&mut records, found)?;
    }
    Ok(records)
}

fn push_record(records: &mut Vec<Record>, found: Record) -> Result<(), KeepFault>
    ensures ok { OnOk result (records.new.items ≡ records.old.items ++ found ∷ []) }
    ensures err { IfErr result (λ e. e ≡ KeepFault.OutOfMemory) }
{
    match records.push(found) {
        Ok(()) => Ok(()),
        Err(_) => Err(KeepFault::OutOfMemory),
    }
}
