//! What the program prints: the texts of values and of outcomes. And the first number of a statement that is too large.
//!
//! Its promise: `put_value` and `put_outcome` add exactly the text that `specs/OutcomeText.antt` and gql_ast's
//! `specs/ValueText.antt` define, or nothing, and `wide_number` finds what gql_ast's `specs/NumberLiterals.antt` says.
//! It stands on `gql_ast`, which has the texts of values, names and expressions.
#![tactic(auto)]

mod outcome;
mod refusal;
#[cfg(test)]
mod tests;
mod value;
mod wide;

pub use outcome::put_outcome;
pub use value::put_value;
pub use wide::wide_number;
