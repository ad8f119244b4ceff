//! The clauses over tables: LET, FILTER, FOR, ORDER BY, OFFSET, LIMIT and RETURN.
//!
//! `apply` answers what the definition `table_after` of `specs/Clauses.antt` says of a clause, columns and rows: the
//! columns and rows behind it, or its first fault. It stands on `gql_eval` for the values of expressions.
#![tactic(auto)]

mod aggregation;
mod around;
mod blank;
mod clauses;
mod columns;
mod distinct;
mod filter;
mod for_clause;
mod group_items;
mod group_results;
mod group_rows;
mod grouped;
mod grouped_return;
mod grouping;
mod groups;
mod let_clause;
mod new_group;
mod notes;
mod numbering;
mod ordering;
mod outputs;
mod paging;
mod prepared;
mod prepared_items;
mod projection;
mod ranked;
mod return_columns;
mod room;
mod row_aggregates;
mod row_key;
mod running;
mod sorting;
mod sums;

pub use clauses::apply;
