//! The program `gql`: its words, the session's file, standard output, a store in SQLite, and a matcher of path patterns.
//!
//! It makes the ports and the matcher, calls `gql_session::run`, whose contract is the product's promise, says on standard error how a
//! run failed, and ends with the status's number.
#![tactic(auto)]

mod file_keeper;

use crate::file_keeper::FileKeeper;
use gql_fan::Serial;
use gql_match::PathMatcher;
use gql_ports::{FileSource, StdoutSink};
use gql_session::{Status, code, run};
use std::marker::Sync;
use std::process::ExitCode;
use std::rt::{Env, Files};
use std::thread::Threads;
use std::{env, io};

fn main(rt: HostRuntime) -> ExitCode {
    let status = run_words(&rt, &rt);
    // A complaint that can't be written changes nothing: the exit status says the same.
    let _ = complain(&rt, &status);
    ExitCode::from(code(&status))
}

/// Runs the command line; the store's file is the host's. Path patterns are searched on this thread alone.
fn run_words<R: Env + Files + Print + AllocGlobal + Threads + Sync>(
    rt: &R,
    host: &HostRuntime,
) -> Status {
    // A word that is no UTF-8 is no word of a command.
    let Ok(words) = env::args(rt) else {
        return Status::Usage;
    };
    let Ok(words) = words.collect(rt.alloc()) else {
        return Status::NoMemory;
    };
    let mut keeper = FileKeeper::new(host, host.alloc());
    let mut source = FileSource::new(rt);
    let mut sink = StdoutSink::new(rt);
    let matcher = PathMatcher::new(Serial::<R>::new());
    let status = run(
        rt.alloc(),
        &matcher,
        &words,
        &mut source,
        &mut sink,
        &mut keeper,
    );
    // A log that can't be copied stays beside the store, and the next opening reads both.
    let _ = keeper.close();
    status
}

/// Says on standard error how the run failed, where it did.
fn complain(rt: &impl Eprint, status: &Status) -> io::Result<()> {
    match status {
        Status::Answered | Status::Refused => Ok(()),
        Status::Usage => eprintln!(rt; "gql: usage"),
        Status::SourceFault => eprintln!(rt; "gql: session file fault"),
        Status::SinkFault => eprintln!(rt; "gql: output fault"),
        Status::StoreFault => eprintln!(rt; "gql: store fault"),
        Status::NoMemory => eprintln!(rt; "gql: no memory"),
        Status::TooLong => eprintln!(rt; "gql: session too long"),
        Status::BadStore(index) => eprintln!(rt; "gql: bad store record {index}"),
    }
}
