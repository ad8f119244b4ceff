//! A catalog under transactions, and the store that keeps it.
//!
//! The promise: a `Txn` is the catalog that statements see and the one that is kept, and each call changes them as it says.
//! A commit leaves in the store the records of the catalog, or all as it was. It stands on gql_rowcode (records of a catalog),
//! gql_type (graphs against their types), gql_graph, gql_ports and gql_ast.
#![tactic(auto)]

mod changes;
mod commit;
mod edit;
mod graph_changes;
mod kept;
mod load;
mod misfit;
mod near;
mod same;
mod store;
mod store_graph;
mod telling;
mod txn;

pub use commit::CommitFault;
pub use edit::EditFault;
pub use load::LoadFault;
pub use txn::Txn;
