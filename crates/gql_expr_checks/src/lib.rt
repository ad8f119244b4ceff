//! What is wrong with one expression, or with a list of names, before a statement is run.
//!
//! A call for each question: a name that isn't in scope, a misuse, a name outside the aggregates, a parameter that isn't set, a
//! name that stands twice. The crate's promise is that each answers exactly the first of what its page of `specs/` defines.
//! Statements and patterns are asked above: here stand the walks that both need, and the columns that both look up. It stands
//! on the trees of `gql_ast`, the texts of `gql_values3`, and `indexmap` for the columns in scope.
#![tactic(auto)]

mod aggregates;
mod columns;
mod expr_names;
mod fault;
mod misuses;
mod name_list;
mod names;
mod outside;
mod parameters;
mod refusals;
mod repeated;

pub use aggregates::has_aggregate;
pub use columns::{KnownColumns, known_columns};
pub use expr_names::{names_in, push_names};
pub use fault::ScopeFault;
pub use name_list::NameList;
pub use outside::name_outside;
pub use refusals::{check_item, check_misuse, check_names, check_parameter, check_parameters};
pub use repeated::check_properties;
