//! One graph of a catalog into a store, by its elements beside those that were there.

ghost use Rattle.std.specs.Prelude.{◌≡◌, ◌≢◌, ◌≤◌, Err, Some, OnOk, OnErr, IsTrue};
ghost use Rattle.gql_graph.specs.Bare.{bare_held};
ghost use Rattle.gql_graph.specs.Catalog.{held_in, replaced};
ghost use Rattle.gql_ports.specs.Causes.{Rose};
ghost use Rattle.gql_type.specs.SoundCatalog.{is_sound};
ghost use Rattle.gql_txn.specs.Faults.{after_commit};
ghost use Rattle.gql_txn.specs.Keeps.{Keeps, IsSameStore};

use crate::commit::CommitFault;
use crate::graph_changes::graph_changes;
use crate::same::same_graph;
use crate::telling::{tell, tell_all};
use gql_graph::{Catalog, Graph, Held};
use gql_ports::Keeper;
use gql_rowcode::records;
use std::alloc::Global;

/// Stores the catalog in the place of one that has the graph before under this name. Where both are the same, the store is
/// asked nothing.
pub fn store_graph<K: Keeper>(
    alloc: Global,
    keeper: &mut K,
    name: &str,
    before: &Graph,
    catalog: &Catalog,
) -> Result<(), CommitFault>
    requires kept { IsTrue (is_sound (replaced name.now before.now.graph catalog.now)) }
    requires sound { IsTrue (is_sound catalog.now) }
    ensures stored { Keeps (K.held keeper.old) (replaced name.now before.now.graph catalog.now) → OnOk result (Keeps (K.held keeper.new) catalog.now) }
    ensures stays { OnErr result (K.held keeper.new ≡ K.held keeper.old) }
    ensures same { IsSameStore (K.held keeper.old) (K.held keeper.new) }
    ensures idle { catalog.now ≡ replaced name.now before.now.graph catalog.now → (K.held keeper.new ≡ K.held keeper.old) × (K.faults keeper.new ≡ K.faults keeper.old) × (result ≢ Err CommitFault.Store) }
    ensures later { K.faults keeper.old ≤ K.faults keeper.new }
    ensures failed { result ≡ Err CommitFault.Store → Rose (K.faults keeper.old) (K.faults keeper.new) }
    ensures risen { K.faults keeper.new ≡ after_commit result (K.faults keeper.old) }
{
    match catalog.held(name) {
        None => Ok(()),
        Some(after) => {
            if same_graph(before, &after.graph) {
                return Ok(());
            }
            store_changed(alloc, keeper, name, before, after, catalog)
        }
    }
}

/// The same of a graph that is another. A store without records gets all of the catalog.
fn store_changed<K: Keeper>(
    alloc: Global,
    keeper: &mut K,
    name: &str,
    before: &Graph,
    after: &Held,
    catalog: &Catalog,
) -> Result<(), CommitFault>
    requires kept { IsTrue (is_sound (replaced name.now before.now.graph catalog.now)) }
    requires sound { IsTrue (is_sound catalog.now) }
    requires there { held_in catalog.now name.now ≡ Some (bare_held after.now) }
    ensures stored { Keeps (K.held keeper.old) (replaced name.now before.now.graph catalog.now) → OnOk result (Keeps (K.held keeper.new) catalog.now) }
    ensures stays { OnErr result (K.held keeper.new ≡ K.held keeper.old) }
    ensures same { IsSameStore (K.held keeper.old) (K.held keeper.new) }
    ensures later { K.faults keeper.old ≤ K.faults keeper.new }
    ensures failed { result ≡ Err CommitFault.Store → Rose (K.faults keeper.old) (K.faults keeper.new) }
    ensures risen { K.faults keeper.new ≡ after_commit result (K.faults keeper.old) }
{
    if keeper.len() == 0 {
        let all = records(alloc, catalog)?;
        // The length's clause says that the records are in order.
        let _count = all.len();
        tell_all(keeper, &all)
    } else {
        let changes = graph_changes(alloc, name, before, after)?;
        tell(keeper, changes.puts.as_slice(), changes.drops.as_slice())
    }
}
