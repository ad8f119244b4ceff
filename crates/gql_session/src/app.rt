//! The two commands as they are handed to `clap`.
ghost use Rattle.std.specs.Prelude.{◌≡◌, IfOk};
ghost use Rattle.clap.specs.Words.{app_of};
ghost use Rattle.gql_session.specs.Words.{run_app, selftest_app};

use clap::{Arg, ArgAction, Command};
use std::alloc::{AllocError, Global};

/// `<session> [--store <path>] [--workers <n>]`
pub fn run_app<'a>(alloc: Global) -> Result<Command<'a>, AllocError>
    ensures { IfOk result (λ c. app_of c ≡ run_app) }
{
    let session = Arg::new(alloc, "session")
        .required(true)
        .action(ArgAction::Set);
    let store = Arg::new(alloc, "store")
        .long("store")
        .action(ArgAction::Set);
    let workers = Arg::new(alloc, "workers")
        .long("workers")
        .action(ArgAction::Set);
    Command::new(alloc, "gql")
        .disable_help_flag(true)
        .disable_version_flag(true)
        .no_binary_name(true)
        .arg(session)?
        .arg(store)?
        .arg(workers)
}

/// `<n>`
pub fn selftest_app<'a>(alloc: Global) -> Result<Command<'a>, AllocError>
    ensures { IfOk result (λ c. app_of c ≡ selftest_app) }
{
    let n = Arg::new(alloc, "n").required(true).action(ArgAction::Set);
    Command::new(alloc, "gql")
        .disable_help_flag(true)
        .disable_version_flag(true)
        .no_binary_name(true)
        .arg(n)
}
