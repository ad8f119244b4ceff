//! What has a number, and whether numbers ascend, below the next one.

ghost use Rattle.std.specs.Prelude.{◌≡◌, ℕ, map};
ghost use Rattle.std.specs.Bool.{OnTrue};
ghost use Rattle.gql_values3.specs.PropertyGraph.{numbers_ascend, are_numbers};
ghost use Rattle.gql_graph.specs.Machinery.Ascending.{AscendsBy};

use gql_values3::{EdgeRecord, NodeRecord};

/// What has a number: a node or an edge as a graph keeps it.
pub trait Numbered: Drop + Sized {
    /// Its number.
    ghost number_of: { Self → ℕ };

    fn number(&self) -> u32
        ensures { result ≡ number_of self.now };
}

impl Numbered for NodeRecord {
    ghost number_of = { λ r. r.number.0 };

    fn number(&self) -> u32 {
        self.number.0
    }
}

impl Numbered for EdgeRecord {
    ghost number_of = { λ r. r.number.0 };

    fn number(&self) -> u32 {
        self.number.0
    }
}

/// Whether the numbers strictly ascend from 1 on, below the next one.
pub fn numbers_fit<T: Numbered>(items: &[T], next: u32) -> bool
    ensures value { result ≡ are_numbers (map T.number_of items.now) next }
    ensures ascending { OnTrue result (AscendsBy T.number_of items.now) }
{
    numbers_ascend(items, next)
}

fn numbers_ascend<T: Numbered>(items: &[T], next: u32) -> bool
    ensures { result ≡ numbers_ascend 0 (map T.number_of items.now) next }
{
    let mut low = 0;
    for item in items {
        let number = item.number();
        if number <= low {
            return false;
        }
        low = number;
    }
    low < next
}
