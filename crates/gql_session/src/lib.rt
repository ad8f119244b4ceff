//! A run of the program, from its words to its status.
//!
//! The crate's promise is the contract of `run`: the bytes that it writes are the texts of one run of the session
//! machine over the kept catalog, what the store then holds stands for the catalog that this run keeps, and every other
//! ending has its stated cause. `clap` reads the words; a session's text is read or generated, and cut into pieces; each
//! is run by `gql_machine`, and its outcome's text is written by one `put`. The catalog comes by `gql_ports` and `gql_txn`.
#![tactic(auto)]

mod app;
mod command_text;
mod generated;
mod load;
mod read_text;
mod run_pieces;
mod session;
mod size;
mod status;
#[cfg(test)]
mod tests;
mod top_call;
mod words;

pub use status::{Status, code};
pub use top_call::run;
