//! The port that is read: the bytes of a text, by its name.

ghost use Rattle.std.specs.Prelude.{◌≡◌, ◌≤◌, ◌<◌, ℕ, Option, option_map, is_ok, length, IfOk, OnErr};
ghost use Rattle.gql_ports.specs.Causes.{HasCause, faults_after};
ghost use Rattle.gql_ports.specs.Told.{Content, after_opening, MatchTold, AfterReading};

use crate::fault::Failed;

/// Gives the bytes of a named text.
pub trait Source {
    /// The name, whether the text is ready, and the bytes that are left, where they are told.
    ghost told: { Self → Option Content };

    /// How often the real thing failed. A call that fails counts once, and no other counts.
    ghost faults: { Self → ℕ };

    /// Makes the named text ready. After Ok it is ready exactly where `name` is its own name, after `Failed` it isn't.
    /// No byte is taken.
    fn open(&mut self, name: &str) -> Result<(), Failed>
        ensures content { told self.new ≡ option_map (after_opening name.now (is_ok result)) (told self.old) }
        ensures cause { HasCause (faults self.old) (faults self.new) result }
        ensures risen { faults self.new ≡ faults_after result (faults self.old) };

    /// Fills in a first part of `into`, and answers its length; 0 is the end.
    fn read(&mut self, into: &mut [u8]) -> Result<usize, Failed>
        requires { 0 < length into.old }
        ensures bound { IfOk result (λ count. count ≤ length into.new) }
        ensures content { IfOk result (λ count. MatchTold (told self.old) (told self.new) (AfterReading into.new count)) }
        ensures unchanged { OnErr result (told self.new ≡ told self.old) }
        ensures cause { HasCause (faults self.old) (faults self.new) result }
        ensures risen { faults self.new ≡ faults_after result (faults self.old) };
}
