//! That several workers work at once, which no clause says.

use crate::{Fan, Job, Serial, Threads};
use gql_values3::OutOfMemory;
use std::alloc::Global;
use std::sync::atomic::{AtomicU64, Ordering};
use std::test::Fail;

/// Two flags: the work on each input raises its own, and looks at the other's until it is raised or the turns are over.
#[derive(Drop)]
struct Gate {
    first: AtomicU64,
    second: AtomicU64,
    turns: u32,
}

impl Job for Gate {
    ghost use Rattle.std.specs.Prelude.{⊤};

    type Out = bool;

    ghost answers = { λ _ _ _. ⊤ };

    fn work(&self, _alloc: Global, input: u32) -> Result<bool, OutOfMemory> {
        let (own, other) = if input == 0 {
            (&self.first, &self.second)
        } else {
            (&self.second, &self.first)
        };
        own.store(1, Ordering::SeqCst);
        for _ in 0..self.turns {
            if other.load(Ordering::SeqCst) == 1 {
                return Ok(true);
            }
        }
        Ok(false)
    }
}

fn closed_gate(turns: u32) -> Gate {
    Gate {
        first: AtomicU64::new(0),
        second: AtomicU64::new(0),
        turns,
    }
}

#[test]
fn two_workers_meet(rt: HostRuntime) -> Result<(), Fail> {
    let threads = Threads { runtime: &rt };
    let outs = threads.run(rt.alloc(), &closed_gate(1_000_000_000), &[0, 1], 2)?;
    assert_eq!(rt; outs.as_slice(), [true, true].as_slice());
    Ok(())
}

#[test]
fn one_thread_takes_turns(rt: HostRuntime) -> Result<(), Fail> {
    let serial: Serial<HostRuntime> = Serial::new();
    let outs = serial.run(rt.alloc(), &closed_gate(1000), &[0, 1], 2)?;
    assert_eq!(rt; outs.as_slice(), [false, true].as_slice());
    Ok(())
}
