//! A store is told what to put and what to drop.

ghost use Rattle.std.specs.Prelude.{◌≡◌, ◌≤◌, [], ◌++◌, Err, map, OnOk, OnErr, IsTrue};
ghost use Rattle.gql_values3.specs.Texts.{texts_differ};
ghost use Rattle.gql_ports.specs.Causes.{Rose};
ghost use Rattle.gql_ports.specs.Held.{keys_ascend};
ghost use Rattle.gql_ports.specs.Told.{MatchTold};
ghost use Rattle.gql_txn.specs.Faults.{after_commit};
ghost use Rattle.gql_txn.specs.Machinery.Storing.{AppliesInOrder};

use crate::commit::CommitFault;
use gql_ports::{KeepFault, Keeper, Key, Record, Records};

/// Tells the store all of the records, and copies none.
pub fn tell_all<K: Keeper>(keeper: &mut K, after: &Records) -> Result<(), CommitFault>
    requires { IsTrue (keys_ascend after.now) }
    ensures ok { OnOk result (MatchTold (K.held keeper.old) (K.held keeper.new) (AppliesInOrder after.now [])) }
    ensures stays { OnErr result (K.held keeper.new ≡ K.held keeper.old) }
    ensures later { K.faults keeper.old ≤ K.faults keeper.new }
    ensures failed { result ≡ Err CommitFault.Store → Rose (K.faults keeper.old) (K.faults keeper.new) }
    ensures risen { K.faults keeper.new ≡ after_commit result (K.faults keeper.old) }
{
    tell(keeper, after.as_slice(), &[])
}

/// Tells the store all at once.
pub fn tell<K: Keeper>(keeper: &mut K, puts: &[Record], drops: &[Key]) -> Result<(), CommitFault>
    requires { IsTrue (texts_differ (map (λ r. r.key) puts.now ++ drops.now)) }
    ensures ok { OnOk result (MatchTold (K.held keeper.old) (K.held keeper.new) (AppliesInOrder puts.now drops.now)) }
    ensures stays { OnErr result (K.held keeper.new ≡ K.held keeper.old) }
    ensures later { K.faults keeper.old ≤ K.faults keeper.new }
    ensures failed { result ≡ Err CommitFault.Store → Rose (K.faults keeper.old) (K.faults keeper.new) }
    ensures risen { K.faults keeper.new ≡ after_commit result (K.faults keeper.old) }
{
    match keeper.apply(puts, drops) {
        Ok(()) => {
            // The length's clause says that the records are in order.
            let _count = keeper.len();
            Ok(())
        }
        Err(KeepFault::Failed) => Err(CommitFault::Store),
        Err(KeepFault::OutOfMemory) => Err(CommitFault::OutOfMemory),
    }
}
