//! The port that is written to.

ghost use Rattle.std.specs.Prelude.{◌≡◌, ℕ, List, Option, OnOk, OnErr};
ghost use Rattle.gql_ports.specs.Causes.{HasCause, faults_after};
ghost use Rattle.gql_ports.specs.Told.{MatchTold, Appends, AppendsPrefix};

use crate::fault::Failed;

/// Takes bytes.
pub trait Sink {
    /// The bytes written, where they are told.
    ghost written: { Self → Option (List ℕ) };

    /// How often the real thing failed. A put that fails counts once, and no other counts.
    ghost faults: { Self → ℕ };

    /// Appends all the bytes; after `Failed`, a first part of them.
    fn put(&mut self, bytes: &[u8]) -> Result<(), Failed>
        ensures all { OnOk result (MatchTold (written self.old) (written self.new) (Appends bytes.now)) }
        ensures part { OnErr result (MatchTold (written self.old) (written self.new) (AppendsPrefix bytes.now)) }
        ensures cause { HasCause (faults self.old) (faults self.new) result }
        ensures risen { faults self.new ≡ faults_after result (faults self.old) };
}
