//! The records of a catalog into a store.

ghost use Rattle.std.specs.Prelude.{◌≡◌, ◌≢◌, ◌≤◌, Err, OnOk, OnErr, IsTrue};
ghost use Rattle.gql_ports.specs.Causes.{Rose};
ghost use Rattle.gql_ports.specs.Held.{keys_ascend};
ghost use Rattle.gql_ports.specs.Told.{MatchTold};
ghost use Rattle.gql_type.specs.SoundCatalog.{is_sound};
ghost use Rattle.gql_txn.specs.Faults.{after_commit};
ghost use Rattle.gql_txn.specs.Keeps.{Keeps, IsSameStore};
ghost use Rattle.gql_txn.specs.Machinery.Changes.{puts_of, drops_of};
ghost use Rattle.gql_txn.specs.Machinery.Meaning.{kept_of};
ghost use Rattle.gql_txn.specs.Machinery.Storing.{AppliesInOrder, Leads};

use crate::changes::{are_same, changes_of};
use crate::commit::CommitFault;
use crate::kept::Kept;
use crate::store_graph::store_graph;
use crate::telling::{tell, tell_all};
use gql_graph::Catalog;
use gql_ports::{Keeper, Records};
use gql_rowcode::records;
use std::alloc::Global;

/// Stores the catalog in the place of the kept one. A store that keeps nothing is told nothing, and where both are the same, the
/// store is asked nothing.
pub fn store<K: Keeper>(
    alloc: Global,
    keeper: &mut K,
    kept: &Kept,
    catalog: &Catalog,
) -> Result<(), CommitFault>
    requires kept { IsTrue (is_sound (kept_of catalog.now kept.now)) }
    requires sound { IsTrue (is_sound catalog.now) }
    ensures stored { Keeps (K.held keeper.old) (kept_of catalog.now kept.now) → OnOk result (Keeps (K.held keeper.new) catalog.now) }
    ensures stays { OnErr result (K.held keeper.new ≡ K.held keeper.old) }
    ensures same { IsSameStore (K.held keeper.old) (K.held keeper.new) }
    ensures idle { catalog.now ≡ kept_of catalog.now kept.now → (K.held keeper.new ≡ K.held keeper.old) × (K.faults keeper.new ≡ K.faults keeper.old) × (result ≢ Err CommitFault.Store) }
    ensures later { K.faults keeper.old ≤ K.faults keeper.new }
    ensures failed { result ≡ Err CommitFault.Store → Rose (K.faults keeper.old) (K.faults keeper.new) }
    ensures risen { K.faults keeper.new ≡ after_commit result (K.faults keeper.old) }
{
    if !keeper.keeps() {
        return Ok(());
    }
    match kept {
        Kept::Same => Ok(()),
        Kept::OneGraph { name, graph } => {
            store_graph(alloc, keeper, name.as_str(), graph, catalog)
        }
        Kept::Whole(whole) => store_whole(alloc, keeper, whole, catalog),
    }
}

/// Stores the catalog in the place of another, by the records of both.
fn store_whole<K: Keeper>(
    alloc: Global,
    keeper: &mut K,
    kept: &Catalog,
    catalog: &Catalog,
) -> Result<(), CommitFault>
    requires kept { IsTrue (is_sound kept.now) }
    requires sound { IsTrue (is_sound catalog.now) }
    ensures stored { Keeps (K.held keeper.old) kept.now → OnOk result (Keeps (K.held keeper.new) catalog.now) }
    ensures stays { OnErr result (K.held keeper.new ≡ K.held keeper.old) }
    ensures same { IsSameStore (K.held keeper.old) (K.held keeper.new) }
    ensures idle { catalog.now ≡ kept.now → (K.held keeper.new ≡ K.held keeper.old) × (K.faults keeper.new ≡ K.faults keeper.old) × (result ≢ Err CommitFault.Store) }
    ensures later { K.faults keeper.old ≤ K.faults keeper.new }
    ensures failed { result ≡ Err CommitFault.Store → Rose (K.faults keeper.old) (K.faults keeper.new) }
    ensures risen { K.faults keeper.new ≡ after_commit result (K.faults keeper.old) }
{
    let before = records(alloc, kept)?;
    let after = records(alloc, catalog)?;
    store_records(alloc, keeper, &before, &after)
}

/// Leads the store from the one list of records to the other.
fn store_records<K: Keeper>(
    alloc: Global,
    keeper: &mut K,
    before: &Records,
    after: &Records,
) -> Result<(), CommitFault>
    ensures ok { OnOk result (MatchTold (K.held keeper.old) (K.held keeper.new) (Leads before.now after.now)) }
    ensures stays { OnErr result (K.held keeper.new ≡ K.held keeper.old) }
    ensures idle { after.now ≡ before.now → (K.held keeper.new ≡ K.held keeper.old) × (K.faults keeper.new ≡ K.faults keeper.old) × (result ≢ Err CommitFault.Store) }
    ensures later { K.faults keeper.old ≤ K.faults keeper.new }
    ensures failed { result ≡ Err CommitFault.Store → Rose (K.faults keeper.old) (K.faults keeper.new) }
    ensures risen { K.faults keeper.new ≡ after_commit result (K.faults keeper.old) }
{
    if are_same(before, after) {
        return Ok(());
    }
    store_changes(alloc, keeper, before, after)
}

/// Tells the store what has to change. A store without records gets all of those after.
fn store_changes<K: Keeper>(
    alloc: Global,
    keeper: &mut K,
    before: &Records,
    after: &Records,
) -> Result<(), CommitFault>
    requires before { IsTrue (keys_ascend before.now) }
    requires after { IsTrue (keys_ascend after.now) }
    ensures ok { OnOk result (MatchTold (K.held keeper.old) (K.held keeper.new) (Leads before.now after.now)) }
    ensures stays { OnErr result (K.held keeper.new ≡ K.held keeper.old) }
    ensures later { K.faults keeper.old ≤ K.faults keeper.new }
    ensures failed { result ≡ Err CommitFault.Store → Rose (K.faults keeper.old) (K.faults keeper.new) }
    ensures risen { K.faults keeper.new ≡ after_commit result (K.faults keeper.old) }
{
    if keeper.len() == 0 {
        tell_all(keeper, after)
    } else {
        tell_changes(alloc, keeper, before, after)
    }
}

/// Tells the store what leads from the one list of records to the other.
fn tell_changes<K: Keeper>(
    alloc: Global,
    keeper: &mut K,
    before: &Records,
    after: &Records,
) -> Result<(), CommitFault>
    ensures ok { OnOk result (MatchTold (K.held keeper.old) (K.held keeper.new) (AppliesInOrder (puts_of before.now after.now) (drops_of before.now after.now))) }
    ensures stays { OnErr result (K.held keeper.new ≡ K.held keeper.old) }
    ensures later { K.faults keeper.old ≤ K.faults keeper.new }
    ensures failed { result ≡ Err CommitFault.Store → Rose (K.faults keeper.old) (K.faults keeper.new) }
    ensures risen { K.faults keeper.new ≡ after_commit result (K.faults keeper.old) }
{
    let changes = changes_of(alloc, before, after)?;
    tell(keeper, changes.puts.as_slice(), changes.drops.as_slice())
}
