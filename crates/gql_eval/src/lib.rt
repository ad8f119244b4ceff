//! The values of expressions.
//!
//! `value` answers what the definitions of `gql_ast` say of an expression over a graph, a row and parameters: its
//! value, or its first fault. It stands on the trees of `gql_ast` and on the values of `gql_values3`.
#![tactic(auto)]

mod aggregates;
mod arithmetic;
mod columns;
mod compiling;
mod constants;
mod cow;
mod distinct;
mod elements;
mod error;
mod functions;
mod groups;
mod heading;
mod held_groups;
mod instruction;
mod joining;
mod labels;
mod leaves;
mod making;
mod matched;
mod operations;
mod operators;
mod over_groups;
mod pattern;
mod places;
mod predicates;
mod prepared;
mod ranked;
mod rows;
mod running;
mod scope;
mod stack;
mod steps;
mod truths;

pub use aggregates::{aggregate_of, extremes_of_values};
pub use arithmetic::count_value;
pub use columns::{copied_column, copied_columns};
pub use cow::CowValue;
pub use elements::element_in;
pub use error::EvalError;
pub use groups::group_name;
pub use heading::Heading;
pub use labels::satisfies;
pub use leaves::{are_digits, number_value};
pub use matched::{bound_names, bound_values};
pub use pattern::holds_in_pattern;
pub use prepared::Prepared;
pub use rows::value;
pub use scope::{Scope, elem_value, look_up};
pub use truths::truth_of_value;
