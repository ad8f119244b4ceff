//! Linear queries: the clauses of a query act one after the other over a table of rows.
//!
//! `run_query` answers what the relation `QueryMayRun` of `specs/QueryRun.antt` admits of a query over a graph and parameters: a
//! table and the graph behind it, or a first refusal. MATCH stands here, by whatever matcher of gql_starts it is given; the clauses
//! over tables are those of `gql_table`, and those that change data those of `gql_change`.
#![tactic(auto)]

mod answer;
mod clauses;
mod laws;
mod match_clause;
mod query;
mod setting;

pub use answer::{Answer, RunFault};
pub use laws::queries_run_in_one_way;
pub use query::{changes_data, run_query, run_reading_query};
