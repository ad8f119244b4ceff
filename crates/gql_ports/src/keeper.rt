//! The port that keeps: records by their keys, put and dropped all or none.

ghost use Rattle.std.specs.Prelude.{◌≡◌, ◌≤◌, ◌<◌, ◌++◌, ℕ, false, Option, None, Some, option_map, length, map, IfOk, OnOk, OnErr, IfSome, IsTrue, slice_get};
ghost use Rattle.std.specs.Option.{option_copied};
ghost use Rattle.gql_ports.specs.Causes.{Rose, count_after};
ghost use Rattle.gql_ports.specs.Told.{MatchTold};
ghost use Rattle.gql_values3.specs.Texts.{texts_differ};
ghost use Rattle.gql_ports.specs.Held.{Holding, keys_ascend, held_after_opening, Applies};

use crate::fault::KeepFault;
use crate::stored::{Key, Record};
use std::alloc::Global;

/// Keeps records by key.
pub trait Keeper {
    /// The name and the records, where they are told.
    ghost held: { Self → Option Holding };

    /// How many records there are.
    ghost count: { Self → ℕ };

    /// How often the real thing failed. A call that fails counts once, and no other counts, want of memory neither.
    ghost faults: { Self → ℕ };

    /// Opens the named store, or one in memory where there is no name. Under its own name the records stay, and under
    /// another there are none. After an error all stays.
    fn open(&mut self, name: Option<&str>) -> Result<(), KeepFault>
        ensures ok { OnOk result (held self.new ≡ option_map (held_after_opening (option_copied name.entry)) (held self.old)) }
        ensures err { OnErr result (held self.new ≡ held self.old) }
        ensures later { faults self.old ≤ faults self.new }
        ensures failed { result ≡ Err KeepFault.Failed → Rose (faults self.old) (faults self.new) }
        ensures risen { faults self.new ≡ count_after result (faults self.old) };

    /// Whether it keeps what it is told until it is asked for it. One that does not need not be told anything, and tells nothing
    /// of what it holds. It takes no memory.
    fn keeps(&self) -> bool
        ensures told { result ≡ false → held self.now ≡ None };

    /// The number of records, whose keys strictly ascend. It takes no memory.
    fn len(&self) -> u64
        ensures count { result ≡ count self.now }
        ensures told { IfSome (held self.now) (λ h. result ≡ length h.records) }
        ensures ordered { IfSome (held self.now) (λ h. IsTrue (keys_ascend h.records)) };

    /// The record of that place, from 0, in ascending order of the keys.
    fn fetch(&mut self, alloc: Global, index: u64) -> Result<Record, KeepFault>
        requires { index < count self.old }
        ensures found { IfOk result (λ r. IfSome (held self.old) (λ h. slice_get h.records index ≡ Some r)) }
        ensures kept { held self.new ≡ held self.old }
        ensures same { count self.new ≡ count self.old }
        ensures later { faults self.old ≤ faults self.new }
        ensures failed { result ≡ Err KeepFault.Failed → Rose (faults self.old) (faults self.new) }
        ensures risen { faults self.new ≡ count_after result (faults self.old) };

    /// Puts and drops all of these, or changes nothing. All the keys differ.
    fn apply(&mut self, puts: &[Record], drops: &[Key]) -> Result<(), KeepFault>
        requires { IsTrue (texts_differ (map (λ r. r.key) puts.now ++ drops.now)) }
        ensures ok { OnOk result (MatchTold (held self.old) (held self.new) (Applies puts.now drops.now)) }
        ensures err { OnErr result (held self.new ≡ held self.old) }
        ensures later { faults self.old ≤ faults self.new }
        ensures failed { result ≡ Err KeepFault.Failed → Rose (faults self.old) (faults self.new) }
        ensures risen { faults self.new ≡ count_after result (faults self.old) };
}
