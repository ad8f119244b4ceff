//! The text of a command's session: what its file holds, or what is generated.
ghost use Rattle.std.specs.Prelude.{◌≡◌, ◌≢◌, ◌≤◌, ◌<◌, ℕ, List, Some, Err, length, IfOk};
ghost use Rattle.gql_ports.specs.Causes.{Rose};
ghost use Rattle.gql_ports.specs.Told.{Content};
ghost use Rattle.gql_session.specs.Words.{selftest, session_of};
ghost use Rattle.gql_session.specs.GeneratedText.{generated};
ghost use Rattle.gql_session.specs.RunEnds.{IsTextOf, most_bytes};
ghost use Rattle.gql_session.specs.Machinery.Seen.{seen};
ghost use Rattle.gql_session.specs.Machinery.Reading.{after_reading, ReadingLeaves};

use crate::generated::generate;
use crate::read_text::{LIMIT, TextFault, read_named};
use crate::words::Command;
use gql_ports::Source;
use gql_values3::Bytes;
use std::alloc::Global;

/// The text of the command's session.
pub fn text_of<S: Source>(
    alloc: Global,
    command: &Command<'_>,
    source: &mut S,
) -> Result<Bytes, TextFault>
    ensures all { (text : List ℕ) → IsTextOf (seen command.now) (S.told source.old) text → IfOk result (λ bytes. bytes ≡ text) }
    ensures within { IfOk result (λ bytes. length bytes ≤ most_bytes) }
    ensures too_long { (text : List ℕ) → IsTextOf (seen command.now) (S.told source.old) text → result ≡ Err TextFault.TooLong → most_bytes < length text }
    ensures leaves { (c : Content) → session_of (seen command.now) ≡ Some c.name → S.told source.old ≡ Some c → ReadingLeaves c.name c.left result (S.told source.new) }
    ensures selftest { (n : ℕ) → seen command.now ≡ selftest n → (S.told source.new ≡ S.told source.old) × (S.faults source.new ≡ S.faults source.old) × (result ≢ Err TextFault.TooLong) × (result ≢ Err TextFault.Failed) }
    ensures later { S.faults source.old ≤ S.faults source.new }
    ensures failed { result ≡ Err TextFault.Failed → Rose (S.faults source.old) (S.faults source.new) }
    ensures risen { S.faults source.new ≡ after_reading result (S.faults source.old) }
{
    match command {
        Command::Run(words) => read_named(alloc, words.session, source),
        Command::Selftest(n) => generate_within(alloc, *n),
    }
}

/// The generated session. The largest has some 600,000 bytes; one beyond the limit would be too much to hold.
fn generate_within(alloc: Global, n: u32) -> Result<Bytes, TextFault>
    ensures all { IfOk result (λ bytes. bytes ≡ generated n) }
    ensures within { IfOk result (λ bytes. length bytes ≤ most_bytes) }
    ensures fits { result ≢ Err TextFault.TooLong }
    ensures made { result ≢ Err TextFault.Failed }
{
    match generate(alloc, n) {
        Ok(bytes) => {
            if bytes.len() <= LIMIT {
                Ok(bytes)
            } else {
                Err(TextFault::OutOfMemory)
            }
        }
        Err(_) => Err(TextFault::OutOfMemory),
    }
}
