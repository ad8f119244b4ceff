//! A list that is taken from its front, item by item.

ghost use Rattle.std.specs.Prelude.{◌≡◌};
ghost use Rattle.gql_change.specs.Machinery.InsertByPlaces.{first_spot, later_spots};

use crate::row_spots::Spot;
use gql_values3::Sequence;
use std::marker::Model;
use std::vec::IntoIter;

/// Items that are handed out in order, seen as the list of those that are left.
#[derive(Drop)]
pub struct Remaining<T> {
    items: IntoIter<T>,
}

impl<T> Model for Remaining<T> {
    ghost use Rattle.std.specs.Prelude.{◌≡◌, List, length};
    ghost use Rattle.std.specs.Vec.Iter.{into_iter_items, into_iter_len};

    ghost Value = { List T };

    ghost view = { λ s. into_iter_items s.items };

    ghost invariant = { λ s. into_iter_len s.items ≡ length (into_iter_items s.items) };
}

/// The spots of a row that are left.
pub type Spots = Remaining<Spot>;

impl Remaining<Spot> {
    pub fn of(spots: Sequence<Spot>) -> Remaining<Spot>
        ensures { result ≡ spots }
    {
        Remaining {
            items: spots.into_vec().into_iter(),
        }
    }

    /// The next spot. There is one for each spot of the clause.
    pub fn next(&mut self) -> Spot
        ensures first { result ≡ first_spot self.old }
        ensures later { self.new ≡ later_spots self.old }
    {
        match self.items.next() {
            Some(spot) => spot,
            None => Spot::Refers(0),
        }
    }
}
