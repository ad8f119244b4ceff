//! Runs the sessions that are named, one behind another, and prints what each writes and its exit status.
//!
//! A word is the name of a session: its file is NAME.gql, which lies where the program runs. Each session runs as the
//! program `gql` runs it, by `gql_session::run`, over a store in memory of its own; a name that begins with `kept_` finds
//! the records of `kept` there, every other one none. What is printed is compared with the stored `stdout`.
#![tactic(auto)]

mod kept;

use gql_fan::Serial;
use gql_match::PathMatcher;
use gql_ports::{FileSource, MemKeeper, Records, StdoutSink};
use gql_session::{Status, code, run};
use gql_values3::{Numbers, OutOfMemory};
use kept::kept_records;
use std::alloc::{AllocError, Global};
use std::marker::Sync;
use std::rt::Files;
use std::thread::Threads;
use std::{env, io};

fn main(rt: HostRuntime) -> io::Result<()> {
    let words: Vec<String> = env::args(&rt)?.collect(rt.alloc())?;
    for i in 1..words.len() {
        if i > 1 {
            println!(&rt; "")?;
        }
        let name = words[i].as_str();
        println!(&rt; "== {name}")?;
        let status = run_named(&rt, name);
        println!(&rt; "status {}", code(&status))?;
    }
    Ok(())
}

/// Runs the session of that name.
fn run_named<R: Files + Print + AllocGlobal + Threads + Sync>(rt: &R, name: &str) -> Status {
    let Ok(words) = command(rt.alloc(), name) else {
        return Status::NoMemory;
    };
    let Ok(records) = records_for(rt.alloc(), name) else {
        return Status::NoMemory;
    };
    let mut keeper = MemKeeper {
        name: None,
        records,
        fails: Numbers::new(rt.alloc()),
        calls: 0,
        faults: 0,
    };
    let mut source = FileSource::new(rt);
    let mut sink = StdoutSink::new(rt);
    let matcher = PathMatcher::new(Serial::<R>::new());
    run(
        rt.alloc(),
        &matcher,
        &words,
        &mut source,
        &mut sink,
        &mut keeper,
    )
}

/// The words of the command line that runs the session.
fn command(alloc: Global, name: &str) -> Result<Vec<String>, AllocError> {
    let file = format!(in alloc; "{name}.gql")?;
    Ok(vec![in alloc;
        String::from_str(alloc, "gql")?,
        String::from_str(alloc, "run")?,
        file,
    ]?)
}

/// The records that the session finds in its store.
fn records_for(alloc: Global, name: &str) -> Result<Records, OutOfMemory> {
    if name.starts_with("kept_") {
        kept_records(alloc)
    } else {
        Ok(Records::new(alloc))
    }
}
