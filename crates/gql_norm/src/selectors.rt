//! What the prefix of a path pattern gives: its selector and its mode.

ghost use Rattle.std.specs.Prelude.{◌≡◌, option_map, IfOk};
ghost use Rattle.gql_norm.specs.NormalForm.{selector_of, mode_of, from_prefix};
ghost use Rattle.gql_norm.specs.NormalData.{selector_data};

use crate::numbers::{number_of, number_or_one};
use crate::path::Selector;
use gql_ast::{Mode, Prefix};
use gql_values3::OutOfMemory;

/// The selector of a prefix, if it is one.
pub fn selector_in(prefix: &Option<Prefix>) -> Result<Option<Selector>, OutOfMemory>
    ensures { IfOk result (λ selector. option_map selector_data selector ≡ from_prefix selector_of prefix.now) }
{
    match prefix {
        None | Some(Prefix::Mode(_) | Prefix::All(_)) => Ok(None),
        Some(Prefix::Any(count, _)) => Ok(Some(Selector::Any(number_or_one(count)?))),
        Some(Prefix::AllShortest(_)) => Ok(Some(Selector::Groups(1))),
        Some(Prefix::AnyShortest(_)) => Ok(Some(Selector::Shortest(1))),
        Some(Prefix::Shortest(count, _)) => Ok(Some(Selector::Shortest(number_of(count)?))),
        Some(Prefix::ShortestGroups(count, _)) => Ok(Some(Selector::Groups(number_or_one(count)?))),
    }
}

/// The mode of a prefix, if it has one.
pub fn mode_in(prefix: &Option<Prefix>) -> Option<Mode>
    ensures { result ≡ from_prefix mode_of prefix.now }
{
    match prefix {
        None => None,
        Some(Prefix::Mode(mode)) => Some(*mode),
        Some(Prefix::All(mode) | Prefix::AllShortest(mode) | Prefix::AnyShortest(mode)) => *mode,
        Some(Prefix::Any(_, mode) | Prefix::Shortest(_, mode) | Prefix::ShortestGroups(_, mode)) =>
            *mode,
    }
}
