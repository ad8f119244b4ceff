//! What every parser by descent stands on.
//!
//! A parser reads lexemes from the front of a slice and answers a tree and the rest. The promise of each reader here: it takes
//! one lexeme exactly where it stands. `specs/` and `proofs/` have readers on lists of lexemes, and the laws by which a grammar's
//! reader is shown to find the longest front.
#![tactic(auto)]

mod lexemes;
mod no_front;
mod word_table;

pub use lexemes::{after_sign, after_word, any_name, from_place, plain_name};
pub use no_front::{NoFront, ParseResult};
pub use word_table::{WordTable, word_at};
