//! The three ports in memory, and the calls that fail there by their number.

ghost use Rattle.std.specs.Prelude.{◌≡◌, ◌≤◌, ◌+◌, ◌-◌, ◌^◌, ◌↔◌, min, IsTrue, IfOk, Contains, if◌then◌else◌};

mod mem_keeper;
mod mem_sink;
mod mem_source;

use gql_values3::Numbers;
pub use mem_keeper::MemKeeper;
pub use mem_sink::MemSink;
pub use mem_source::MemSource;

/// Counts a call, and answers whether its number, from 1, is one of those that fail; then it counts a fault too.
fn fails_now(fails: &Numbers, calls: &mut u64, faults: &mut u64) -> bool
    ensures honest { IsTrue result ↔ Contains fails.now calls.new }
    ensures counted { calls.new ≡ min (calls.old + 1) (2 ^ 64 - 1) }
    ensures later { faults.old ≤ faults.new }
    ensures fault { faults.new ≡ (if result then min (faults.old + 1) (2 ^ 64 - 1) else faults.old) }
{
    *calls = calls.saturating_add(1);
    let fails = fails.as_slice().contains(calls);
    if fails {
        *faults = faults.saturating_add(1);
    }
    fails
}

#[cfg(test)]
mod tests {
    use crate::memory::mem_keeper::MemKeeper;
    use crate::memory::mem_sink::MemSink;
    use crate::{Keeper, Record, Records, Sink};
    use gql_values3::{Bytes, OutOfMemory, Sequence};
    use std::alloc::Global;
    use std::test::Fail;

    fn bytes_of(alloc: Global, text: &[u8]) -> Result<Bytes, OutOfMemory> {
        let mut bytes = Sequence::new(alloc);
        bytes.append(text)?;
        Ok(bytes)
    }

    #[test]
    fn a_put_is_appended(rt: HostRuntime) -> Result<(), Fail> {
        let mut sink = MemSink {
            bytes: bytes_of(rt.alloc(), b"ab")?,
            fails: Sequence::new(rt.alloc()),
            calls: 0,
            faults: 0,
        };
        sink.put(b"cd")?;
        assert_eq!(rt; sink.bytes.as_slice(), b"abcd".as_slice());
        Ok(())
    }

    /// A record of the key a.
    fn record(alloc: Global) -> Result<Record, OutOfMemory> {
        Ok(Record {
            key: bytes_of(alloc, b"a")?,
            value: bytes_of(alloc, b"1")?,
        })
    }

    /// Without records, and without a name.
    fn keeper(alloc: Global) -> MemKeeper {
        MemKeeper {
            name: None,
            records: Records::new(alloc),
            fails: Sequence::new(alloc),
            calls: 0,
            faults: 0,
        }
    }

    #[test]
    fn what_is_put_is_fetched(rt: HostRuntime) -> Result<(), Fail> {
        let mut keeper = keeper(rt.alloc());
        let puts = [record(rt.alloc())?];
        keeper.apply(&puts, &[])?;
        assert_eq!(rt; keeper.len(), 1);
        let found = keeper.fetch(rt.alloc(), 0)?;
        assert_eq!(rt; found.value.as_slice(), b"1".as_slice());
        Ok(())
    }

    #[test]
    fn another_name_has_no_records(rt: HostRuntime) -> Result<(), Fail> {
        let mut keeper = keeper(rt.alloc());
        keeper.records.put(record(rt.alloc())?)?;
        keeper.open(Some("t"))?;
        assert_eq!(rt; keeper.len(), 0);
        Ok(())
    }
}
