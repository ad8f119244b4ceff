//! Which words are a command, and which one.
ghost use Rattle.std.specs.Prelude.{◌≡◌, ◌≤◌, [], drop, vec_len, map, string_bytes, option_map, slice_index_or, Some, IfOk};
ghost use Rattle.std.specs.Option.{option_copied};
ghost use Rattle.gql_values3.specs.Texts.{same_text};
ghost use Rattle.gql_session.specs.Words.{command_of, run_app, run_in, run_with, rows_of, selftest_app, selftest_in, selftest_with, size_in, workers_in};
ghost use Rattle.gql_session.specs.Machinery.Seen.{seen};

use crate::app::{run_app, selftest_app};
use crate::size::number_up_to;
use clap::error::ErrorKind;
use std::alloc::{AllocError, Global};

/// The words of a run: a session's file, the store's file, if there is one, and the number of workers.
#[derive(Clone, Copy, Debug)]
pub struct RunWords<'a> {
    pub session: &'a str,
    pub store: Option<&'a str>,
    pub workers: u32,
}

/// What the program is told to do.
#[derive(Clone, Copy, Debug)]
pub enum Command<'a> {
    Run(RunWords<'a>),
    /// To run the generated session of that size.
    Selftest(u32),
}

/// The command that the words are, if they are one. The first word is the program's name.
pub fn read_words<'a>(
    alloc: Global,
    words: &'a Vec<String>,
) -> Result<Option<Command<'a>>, AllocError>
    ensures { IfOk result (λ r. option_map seen r ≡ command_of (map string_bytes words.entry.now.items)) }
{
    if words.len() < 2 {
        return Ok(None);
    }
    if is_second(words, "run") {
        read_run(alloc, &words[2..])
    } else if is_second(words, "selftest") {
        read_selftest(alloc, &words[2..])
    } else {
        Ok(None)
    }
}

/// Whether the second word is this one.
fn is_second(words: &Vec<String>, name: &str) -> bool
    requires { 2 ≤ vec_len words.now }
    ensures { result ≡ same_text (slice_index_or (map string_bytes words.now.items) 1 []) name.now }
{
    let words = words.as_slice();
    words[1].as_str() == name
}

/// Reads the words behind `run`.
fn read_run<'a>(alloc: Global, words: &'a [String]) -> Result<Option<Command<'a>>, AllocError>
    ensures { IfOk result (λ r. option_map seen r ≡ run_in (rows_of run_app (map string_bytes words.entry.now))) }
{
    let app = run_app(alloc)?;
    match app.try_get_matches_from(words) {
        Ok(matches) => {
            let session = matches.get_str("session");
            let store = matches.get_str("store");
            let workers = matches.get_str("workers");
            Ok(run_of(session, store, workers))
        }
        Err(error) => {
            if error.kind() == ErrorKind::OutOfMemory {
                Err(AllocError)
            } else {
                Ok(None)
            }
        }
    }
}

/// Reads the words behind `selftest`.
fn read_selftest<'a>(alloc: Global, words: &'a [String]) -> Result<Option<Command<'a>>, AllocError>
    ensures { IfOk result (λ r. option_map seen r ≡ selftest_in (rows_of selftest_app (map string_bytes words.entry.now))) }
{
    let app = selftest_app(alloc)?;
    match app.try_get_matches_from(words) {
        Ok(matches) => Ok(selftest_of(matches.get_str("n"))),
        Err(error) => {
            if error.kind() == ErrorKind::OutOfMemory {
                Err(AllocError)
            } else {
                Ok(None)
            }
        }
    }
}

fn run_of<'a>(
    session: Option<&'a str>,
    store: Option<&'a str>,
    workers: Option<&'a str>,
) -> Option<Command<'a>>
    ensures { option_map seen result ≡ run_with (option_copied session.entry) (option_copied store.entry) (workers_in (option_copied workers.entry)) }
{
    let workers = workers_of(workers);
    match session {
        None => None,
        Some(session) => match workers {
            None => None,
            Some(workers) => Some(Command::Run(RunWords {
                session,
                store,
                workers,
            })),
        },
    }
}

fn selftest_of<'a>(size: Option<&'a str>) -> Option<Command<'a>>
    ensures { option_map seen result ≡ selftest_with (size_in (option_copied size.entry)) }
{
    match size {
        None => None,
        Some(size) => match number_up_to(5000, size) {
            None => None,
            Some(size) => Some(Command::Selftest(size)),
        },
    }
}

fn workers_of(workers: Option<&str>) -> Option<u32>
    ensures { result ≡ workers_in (option_copied workers.entry) }
{
    match workers {
        None => Some(1),
        Some(workers) => number_up_to(64, workers),
    }
}
