//! The session machine: one statement after another over a transaction.
//!
//! The crate's promise is the contract of `run_piece`: the text that it leaves is that of one step of the machine, the session is
//! then in the state behind it, and the store keeps what the machine keeps. `gql_lexer` and `gql_statements` read a piece,
//! `gql_scope` and this crate refuse it, `gql_linear`, `gql_eval`, `gql_type` and `gql_txn` execute it, and `gql_text` prints.
#![tactic(auto)]

mod answer;
mod catalog_statement;
mod change;
mod commit;
mod current;
mod ended;
mod exists;
mod laws;
mod missing;
mod names;
mod out_of_place;
mod parameters;
mod piece;
mod query;
mod reading;
mod refusals;
mod session_statement;
mod state;
mod statement;
mod text;
mod tools;
mod transaction_statement;

pub use laws::{
    a_piece_reads_in_one_way, a_session_begins_typed, an_unopened_state_is_kept,
    pieces_run_in_one_way, typed_graphs_fit,
};
pub use piece::run_piece;
pub use state::Session;
pub use tools::Tools;
