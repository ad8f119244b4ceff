//! Bytes that are written to standard output.

ghost use Rattle.std.specs.Prelude.{◌≡◌, ◌≤◌, [], length, None, IfOk, IsOk};

use crate::fault::Failed;
use crate::sink::Sink;
use std::io::{self, ErrorKind, Write};

/// Standard output. It tells no content.
#[derive(Drop)]
pub struct StdoutSink<'a, R: Print> {
    rt: &'a R,
    faults: u64,
}

impl<'a, R: Print> StdoutSink<'a, R> {
    pub fn new(rt: &'a R) -> StdoutSink<'a, R>
        ensures { result.faults ≡ 0 }
    {
        StdoutSink { rt, faults: 0 }
    }
}

impl<'a, R: Print> Sink for StdoutSink<'a, R> {
    ghost written = { λ _. None };

    ghost faults = { λ s. s.faults };

    fn put(&mut self, bytes: &[u8]) -> Result<(), Failed> {
        match write_whole(self.rt, bytes) {
            Ok(()) => Ok(()),
            Err(_) => {
                self.faults = self.faults.saturating_add(1);
                Err(Failed)
            }
        }
    }
}

/// Writes again until all the bytes are taken. A write that takes none of them is an error.
fn write_whole<R: Print>(rt: &R, bytes: &[u8]) -> io::Result<()>
    ensures { bytes.now ≡ [] → IsOk result }
{
    let mut rest = bytes;
    while !rest.is_empty() {
        let taken = write_some(rt, rest)?;
        if taken == 0 {
            return Err(io::Error::from(ErrorKind::WriteZero));
        }
        rest = &rest[taken..];
    }
    Ok(())
}

/// How often a write that a signal interrupts is tried.
const TRIES: u32 = 16;

/// Writes a first part of the bytes, and answers its length.
fn write_some<R: Print>(rt: &R, bytes: &[u8]) -> io::Result<usize>
    ensures { IfOk result (λ taken. taken ≤ length bytes.now) }
{
    for _ in 1..TRIES {
        match io::writer(rt).write(bytes) {
            Err(error) if error.kind() == ErrorKind::Interrupted => {}
            outcome => return outcome,
        }
    }
    io::writer(rt).write(bytes)
}

#[cfg(test)]
mod tests {
    use super::*;
    use std::cell::Cell;
    use std::fmt::Display;
    use std::test::Fail;

    /// Takes at most so many bytes by one write, and counts the writes. Every third is interrupted.
    #[derive(Drop)]
    struct Pipe {
        most: usize,
        writes: Cell<u32>,
    }

    impl Print for Pipe {
        fn print<D: Display + Drop>(&self, _value: D) -> io::Result<()> {
            Ok(())
        }

        fn println<D: Display + Drop>(&self, _value: D) -> io::Result<()> {
            Ok(())
        }

        fn write_all(&self, _bytes: &[u8]) -> io::Result<()> {
            Ok(())
        }

        fn write_some(&self, bytes: &[u8]) -> io::Result<usize> {
            self.writes.set(self.writes.get().wrapping_add(1));
            if self.writes.get() % 3 == 0 {
                return Err(io::Error::new(ErrorKind::Interrupted, "a signal"));
            }
            Ok(self.most.min(bytes.len()))
        }
    }

    #[test]
    fn writes_until_all_is_taken(rt: HostRuntime) -> Result<(), Fail> {
        for (most, bytes, given, writes) in [
            (5, b"MATCH".as_slice(), Ok(()), 1),
            (2, b"MATCH".as_slice(), Ok(()), 4),
            (0, b"MATCH".as_slice(), Err(Failed), 1),
            (0, b"".as_slice(), Ok(()), 0),
        ] {
            let pipe = Pipe {
                most,
                writes: Cell::new(0),
            };
            let mut sink = StdoutSink::new(&pipe);
            assert_eq!(rt; sink.put(bytes), given);
            assert_eq!(rt; sink.faults == 0, given.is_ok());
            assert_eq!(rt; pipe.writes.get(), writes);
        }
        let mut sink = StdoutSink::new(&rt);
        sink.put(b"MATCH\n")?;
        Ok(())
    }
}
