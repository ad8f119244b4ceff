//! What the program reads, writes and keeps: the three ports, and what stands for them in memory.
//!
//! A port's contract says what it holds where that is told, and that it fails only where its count of faults rose.
//! The crate's promise is that each implementation keeps its port's contract: exactly in memory, by causes alone over
//! files and standard output. It stands on `gql_values3`.
#![tactic(auto)]

mod fault;
mod file;
mod keeper;
mod memory;
mod records;
mod sink;
mod source;
mod stdout;
mod stored;

pub use fault::{Failed, KeepFault};
pub use file::FileSource;
pub use keeper::Keeper;
pub use memory::{MemKeeper, MemSink, MemSource};
pub use records::Records;
pub use sink::Sink;
pub use source::Source;
pub use stdout::StdoutSink;
pub use stored::{Key, Record};
