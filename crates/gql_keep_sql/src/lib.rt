//! Records in a SQLite file, or in a list in memory where there is no name.
//!
//! The crate's promise is that `SqlKeeper` keeps the contract of gql_ports' `Keeper`: it fails only where its count of
//! faults rose, and the keys that it tells of are those that it found and wrote, in ascending order. It stands on
//! `sqlite` and `gql_ports`.
#![tactic(auto)]

mod changes;
mod fault;
mod keeper;
mod keys;
mod memory;
mod place;
mod reader;
mod store;
mod transaction;

pub use keeper::{KeeperOver, SqlKeeper};
pub use place::{StoreFiles, Supposed};

#[cfg(test)]
mod tests;
