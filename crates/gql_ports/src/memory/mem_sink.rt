//! A sink in memory, which fails at the puts that it was told.

ghost use Rattle.std.specs.Prelude.{◌≡◌, ◌+◌, ◌-◌, ◌^◌, min, Some, IsErr, OnOk, OnErr, Contains};
ghost use Rattle.gql_ports.specs.Causes.{HasCause, faults_after};
ghost use Rattle.gql_ports.specs.Told.{MatchTold, Appends, AppendsPrefix};
ghost use Rattle.gql_ports.specs.Memory.{written_to};

use crate::fault::Failed;
use crate::memory::fails_now;
use crate::sink::Sink;
use gql_values3::{Bytes, Numbers};

/// Bytes in memory. A put that fails appends nothing.
#[derive(Debug, Drop)]
pub struct MemSink {
    pub bytes: Bytes,
    /// The numbers of the puts that fail, from 1.
    pub fails: Numbers,
    /// How many puts there were.
    pub calls: u64,
    /// How many of them failed, those that found no memory among them.
    pub faults: u64,
}

impl Sink for MemSink {
    ghost written = { written_to };

    ghost faults = { λ s. s.faults };

    fn put(&mut self, bytes: &[u8]) -> Result<(), Failed>
        ensures all { OnOk result (MatchTold (written_to self.old) (written_to self.new) (Appends bytes.now)) }
        ensures part { OnErr result (MatchTold (written_to self.old) (written_to self.new) (AppendsPrefix bytes.now)) }
        ensures cause { HasCause self.old.faults self.new.faults result }
        ensures risen { self.new.faults ≡ faults_after result self.old.faults }
        ensures honest { Contains self.old.fails self.new.calls → IsErr result }
        ensures whole { OnErr result (self.new.bytes ≡ self.old.bytes) }
        ensures counted { self.new.calls ≡ min (self.old.calls + 1) (2 ^ 64 - 1) }
        ensures settings { self.new.fails ≡ self.old.fails }
    {
        if fails_now(&self.fails, &mut self.calls, &mut self.faults) {
            return Err(Failed);
        }
        match self.bytes.append(bytes) {
            Ok(()) => Ok(()),
            Err(_) => {
                self.faults = self.faults.saturating_add(1);
                Err(Failed)
            }
        }
    }
}
