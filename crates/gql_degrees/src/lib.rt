//! What is refused of a pattern for its bounds, and for the kinds and the degrees of its variables.
//!
//! `bound_at_fault`, `wrong_kind`, `joined_group` and `joined_conditional` answer the first fault in the text, exactly as `gql_norm`
//! defines it. It stands on the patterns of `gql_ast` and `gql_norm`, and on `gql_expr_checks` for names that are looked up.
#![tactic(auto)]

mod before;
mod bounds;
mod declared;
mod degrees;
mod digits;
mod joins;
mod kinds;
mod walk;
mod walked;

pub use bounds::bound_at_fault;
pub use joins::{joined_conditional, joined_group};
pub use kinds::wrong_kind;
