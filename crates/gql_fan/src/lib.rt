//! Work on a list of inputs, on one thread or on several.
//!
//! Its one promise is that of `Fan::run`: there are as many outputs as inputs, and each answers the input of its place, whatever
//! the fan and the number of workers. It stands on the lists of gql_values3.
#![tactic(auto)]

mod fan;
mod halves;
mod in_turn;
mod job;
mod serial;
#[cfg(test)]
mod tests;
mod threads;

pub use fan::{Fan, Outs};
pub use job::Job;
pub use serial::Serial;
pub use threads::Threads;
