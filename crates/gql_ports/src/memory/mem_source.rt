//! A source in memory, which gives its text in pieces and fails at the calls that it was told.

ghost use Rattle.std.specs.Prelude.{◌≡◌, ◌≤◌, ◌<◌, ◌+◌, ◌-◌, ◌^◌, ◌↔◌, min, max, if◌then◌else◌, Some, length, take, drop, true, option_map, is_ok, IsErr, IfOk, OnErr, Contains};
ghost use Rattle.gql_ports.specs.Causes.{HasCause, faults_after};
ghost use Rattle.gql_ports.specs.Told.{after_opening, MatchTold, AfterReading};
ghost use Rattle.gql_ports.specs.Memory.{told_of};

use crate::fault::Failed;
use crate::memory::fails_now;
use crate::source::Source;
use gql_values3::{Bytes, Numbers, Text};

/// A text in memory, given in pieces.
#[derive(Debug, Drop)]
pub struct MemSource {
    pub name: Text,
    /// Whether the last `open` went well and named this text.
    pub ready: bool,
    pub bytes: Bytes,
    /// A read gives at most so many bytes, and at least one.
    pub piece: u64,
    /// The numbers of the calls that fail, from 1.
    pub fails: Numbers,
    /// How many calls of `open` and `read` there were.
    pub calls: u64,
    /// How many of them failed.
    pub faults: u64,
    /// How many of the bytes were taken.
    pub taken: u64,
}

impl Source for MemSource {
    ghost told = { told_of };

    ghost faults = { λ s. s.faults };

    fn open(&mut self, name: &str) -> Result<(), Failed>
        ensures content { told_of self.new ≡ option_map (after_opening name.now (is_ok result)) (told_of self.old) }
        ensures cause { HasCause self.old.faults self.new.faults result }
        ensures risen { self.new.faults ≡ faults_after result self.old.faults }
        ensures honest { IsErr result ↔ Contains self.old.fails self.new.calls }
        ensures counted { self.new.calls ≡ min (self.old.calls + 1) (2 ^ 64 - 1) }
        ensures settings { (self.new.fails ≡ self.old.fails) × (self.new.piece ≡ self.old.piece) }
    {
        if fails_now(&self.fails, &mut self.calls, &mut self.faults) {
            self.ready = false;
            return Err(Failed);
        }
        self.ready = name == self.name.as_str();
        Ok(())
    }

    fn read(&mut self, into: &mut [u8]) -> Result<usize, Failed>
        requires { 0 < length into.old }
        ensures bound { IfOk result (λ count. count ≤ length into.new) }
        ensures content { IfOk result (λ count. MatchTold (told_of self.old) (told_of self.new) (AfterReading into.new count)) }
        ensures unchanged { OnErr result (told_of self.new ≡ told_of self.old) }
        ensures cause { HasCause self.old.faults self.new.faults result }
        ensures risen { self.new.faults ≡ faults_after result self.old.faults }
        ensures honest { IsErr result ↔ Contains self.old.fails self.new.calls }
        ensures counted { self.new.calls ≡ min (self.old.calls + 1) (2 ^ 64 - 1) }
        ensures settings { (self.new.fails ≡ self.old.fails) × (self.new.piece ≡ self.old.piece) }
        ensures exact { IfOk result (λ count. count ≡ (if self.old.ready then min (min (length self.old.bytes - self.old.taken) (length into.old)) (max self.old.piece 1) else 0)) }
    {
        if fails_now(&self.fails, &mut self.calls, &mut self.faults) {
            return Err(Failed);
        }
        if !self.ready {
            return Ok(0);
        }
        let bytes = self.bytes.as_slice();
        let taken = (self.taken as usize).min(bytes.len());
        let count = (bytes.len() - taken)
            .min(into.len())
            .min(self.piece.max(1) as usize);
        copy_to_front(&bytes[taken..taken + count], into);
        self.taken = (taken + count) as u64;
        Ok(count)
    }
}

/// Writes the bytes at the front.
fn copy_to_front(bytes: &[u8], into: &mut [u8])
    requires { length bytes.now ≤ length into.old }
    ensures { take (length bytes.now) into.new ≡ bytes.now }
{
    into[..bytes.len()].copy_from_slice(bytes);
}
