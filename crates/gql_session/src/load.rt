//! The catalog for which the records of a store stand.
ghost use Rattle.std.specs.Prelude.{◌≡◌, ◌≤◌, ◌⊎◌, ℕ, List, Some, IfOk, IsTrue, MatchResult};
ghost use Rattle.std.specs.Option.{option_copied};
ghost use Rattle.gql_ports.specs.Causes.{Rose};
ghost use Rattle.gql_ports.specs.declared.stored.Record.{Record as Stored};
ghost use Rattle.gql_graph.specs.Catalog.{CatalogData};
ghost use Rattle.gql_rowcode.specs.StandFor.{StandFor};
ghost use Rattle.gql_rowcode.specs.FirstBad.{FirstBad};
ghost use Rattle.gql_txn.specs.TxnData.{settled};
ghost use Rattle.gql_txn.specs.Faults.{after_loading};
ghost use Rattle.gql_txn.specs.Loads.{LoadCause, is_lack};

use gql_ports::Keeper;
use gql_txn::{LoadFault, Txn};
use std::alloc::Global;

/// Opens the store of that name, or one in memory, and loads its catalog.
pub fn load_store<K: Keeper>(
    alloc: Global,
    store: Option<&str>,
    keeper: &mut K,
) -> Result<Txn, LoadFault>
    ensures settled { IfOk result (λ t. t ≡ settled t.catalog) }
    ensures found { (records : List Stored) → K.held keeper.old ≡ Some (record { name = option_copied store.entry; records = records }) → MatchResult result (λ t. (t ≡ settled t.catalog) × StandFor records t.catalog) (LoadCause records) }
    ensures at_fault { (records : List Stored) (i : ℕ) → K.held keeper.old ≡ Some (record { name = option_copied store.entry; records = records }) → FirstBad records i → MatchResult result (λ _. ⊥) (λ e. (e ≡ LoadFault.BadRecord i) ⊎ IsTrue (is_lack e)) }
    ensures complete { (records : List Stored) (c : CatalogData) → K.held keeper.old ≡ Some (record { name = option_copied store.entry; records = records }) → StandFor records c → MatchResult result (λ t. t.catalog ≡ c) (λ e. IsTrue (is_lack e)) }
    ensures kept { (records : List Stored) → K.held keeper.old ≡ Some (record { name = option_copied store.entry; records = records }) → K.held keeper.new ≡ K.held keeper.old }
    ensures later { K.faults keeper.old ≤ K.faults keeper.new }
    ensures failed { result ≡ Err LoadFault.Failed → Rose (K.faults keeper.old) (K.faults keeper.new) }
    ensures risen { K.faults keeper.new ≡ after_loading result (K.faults keeper.old) }
{
    match keeper.open(store) {
        Ok(()) => Txn::load(alloc, keeper),
        Err(fault) => Err(LoadFault::from(fault)),
    }
}
