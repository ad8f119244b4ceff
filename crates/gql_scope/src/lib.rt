//! Static refusals: what is wrong with a statement before it is run.
//!
//! `check` answers the first refusal of a statement, by the order of the codes and within one code the first in the text, exactly as
//! `specs/WholePatterns.antt` defines it; `bounds` answers the first bound at fault, by `specs/StatementBounds.antt`. It stands on what
//! `gql_expr_checks` asks of one expression, what `gql_degrees`, `gql_term` and `gql_pattern_checks` ask of one pattern, and what
//! `gql_type` asks of the text of a graph type.
#![tactic(auto)]

mod behind;
mod catalog;
mod change_kinds;
mod change_maps;
mod change_misuses;
mod change_names;
mod change_parameters;
mod clauses;
mod codes;
mod column_faults;
mod grouping;
mod insert_maps;
mod insert_spots;
mod joins;
mod laws;
mod match_columns;
mod misused_clauses;
mod normal_clause;
mod outputs;
mod refusals;
mod repetition;
mod spot_names;
mod standing;
mod statement_bounds;
mod unknown_names;
mod unset_parameters;
mod wrong_kinds;

pub use codes::check;
pub use gql_expr_checks::ScopeFault;
pub use laws::accepted_matches_are_sound;
pub use statement_bounds::bounds;
