//! The text of a session, read to its end.
ghost use Rattle.std.specs.Prelude.{◌≡◌, ◌≤◌, ◌<◌, ℕ, length, true, Some, IfOk};
ghost use Rattle.gql_ports.specs.Causes.{Rose};
ghost use Rattle.gql_ports.specs.Told.{Content};
ghost use Rattle.gql_session.specs.Machinery.Reading.{after_reading, ReadingLeaves};

use gql_ports::Source;
use gql_values3::Bytes;
use std::alloc::Global;

/// The most bytes that a session's text may have.
pub const LIMIT: usize = 67_108_864;

/// How many bytes a read asks for.
const PART: usize = 65_536;

/// Why a text was not read to its end.
#[derive(Clone, Copy, Debug, PartialEq, Eq)]
pub enum TextFault {
    /// The source failed.
    Failed,
    /// There are more bytes than a text may have.
    TooLong,
    OutOfMemory,
}

/// Opens a text and reads all of it.
pub fn read_named<S: Source>(alloc: Global, name: &str, source: &mut S) -> Result<Bytes, TextFault>
    ensures all { (c : Content) → S.told source.old ≡ Some c → c.name ≡ name.now → IfOk result (λ bytes. bytes ≡ c.left) }
    ensures within { IfOk result (λ bytes. length bytes ≤ LIMIT) }
    ensures too_long { (c : Content) → S.told source.old ≡ Some c → c.name ≡ name.now → result ≡ Err TextFault.TooLong → LIMIT < length c.left }
    ensures leaves { (c : Content) → S.told source.old ≡ Some c → c.name ≡ name.now → ReadingLeaves c.name c.left result (S.told source.new) }
    ensures later { S.faults source.old ≤ S.faults source.new }
    ensures failed { result ≡ Err TextFault.Failed → Rose (S.faults source.old) (S.faults source.new) }
    ensures risen { S.faults source.new ≡ after_reading result (S.faults source.old) }
{
    match source.open(name) {
        Ok(()) => read_all(alloc, source),
        Err(_) => Err(TextFault::Failed),
    }
}

/// Reads all there is. Each read before the end gives a byte at least, so the limit ends a text that has no end.
fn read_all<S: Source>(alloc: Global, source: &mut S) -> Result<Bytes, TextFault>
    ensures all { (c : Content) → S.told source.old ≡ Some c → c.ready ≡ true → IfOk result (λ bytes. bytes ≡ c.left) }
    ensures within { IfOk result (λ bytes. length bytes ≤ LIMIT) }
    ensures too_long { (c : Content) → S.told source.old ≡ Some c → c.ready ≡ true → result ≡ Err TextFault.TooLong → LIMIT < length c.left }
    ensures leaves { (c : Content) → S.told source.old ≡ Some c → c.ready ≡ true → ReadingLeaves c.name c.left result (S.told source.new) }
    ensures later { S.faults source.old ≤ S.faults source.new }
    ensures failed { result ≡ Err TextFault.Failed → Rose (S.faults source.old) (S.faults source.new) }
    ensures risen { S.faults source.new ≡ after_reading result (S.faults source.old) }
{
    let mut bytes = Bytes::new(alloc);
    let mut part = [0u8; PART];
    for _turn in 0..=LIMIT {
        let count = match source.read(&mut part) {
            Ok(count) => count,
            Err(_) => return Err(TextFault::Failed),
        };
        if count == 0 {
            return Ok(bytes);
        }
        if LIMIT - bytes.len() < count {
            return Err(TextFault::TooLong);
        }
        match bytes.append(&part[..count]) {
            Ok(()) => {}
            Err(_) => return Err(TextFault::OutOfMemory),
        }
    }
    unreachable!()
}
