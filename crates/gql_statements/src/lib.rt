//! Statements, read from lexemes.
//!
//! The promise: unless memory runs out, `parse` answers a statement exactly where some lexemes as a whole derive it
//! (`specs/StatementGrammar.antt`) and brackets are nested at most 64 deep; lexemes derive one statement at most.
#![tactic(auto)]

mod catalog;
mod catalog_name;
mod change_word;
mod clause;
mod clause_word;
mod delete_clause;
mod fill;
mod filter_clause;
mod for_clause;
mod graph_kind;
mod graph_words;
mod insert_clause;
mod laws;
mod let_clause;
mod match_clause;
mod page_clause;
mod parser;
mod past_word;
mod query;
mod remove_clause;
mod return_clause;
mod session;
mod session_word;
mod set_clause;
mod sort;
mod statement;
mod statement_word;
mod transaction;

pub use laws::statements_derive_once;
pub use parser::parse;
