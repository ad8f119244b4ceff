//! What a walk finds of a name in a part, and how it is put together.

ghost use Rattle.std.specs.Prelude.{◌≡◌, IfOk};
ghost use Rattle.gql_degrees.specs.Machinery.JoinData.{at_fault, before_data, walked_data};
ghost use Rattle.gql_degrees.specs.Machinery.JoinWalk.{against, all_group, all_optional, closed, former, in_turn, lone, nothing, place_if, side_by, sooner};

use crate::before::{Before, Join, is_behind_fault};
use crate::degrees::{beside, element_degree, joint, optional, repeated};
use gql_norm::{Degree, plus};
use gql_values3::{OutOfMemory, Text};

/// What a walk finds of a name in a part: its degree there, the place of its first declaration, the least place at fault, and
/// the place behind the part. Its meaning is `walked_data`.
#[derive(Clone, Copy, Debug, PartialEq, Eq)]
pub struct Walked {
    pub degree: Option<Degree>,
    pub first: Option<u64>,
    pub fault: Option<u64>,
    pub behind: u64,
}

/// Of no part.
pub fn nothing(place: u64) -> Walked
    ensures { walked_data result ≡ nothing place }
{
    Walked {
        degree: None,
        first: None,
        fault: None,
        behind: place,
    }
}

/// Of one element.
pub fn lone(variable: &Option<Text>, name: &Text, entry: u64) -> Result<Walked, OutOfMemory>
    ensures { IfOk result (λ found. walked_data found ≡ lone variable.now name.now entry) }
{
    let behind = plus(entry, 1)?;
    match element_degree(variable, name) {
        Some(degree) => Ok(Walked {
            degree: Some(degree),
            first: Some(entry),
            fault: None,
            behind,
        }),
        None => Ok(nothing(behind)),
    }
}

/// One part and then another.
pub fn in_turn(one: Walked, other: Walked) -> Walked
    ensures { walked_data result ≡ in_turn (walked_data one) (walked_data other) }
{
    Walked {
        degree: joint(one.degree, other.degree),
        first: former(one.first, other.first),
        fault: sooner(one.fault, other.fault),
        behind: other.behind,
    }
}

/// One part beside another.
pub fn side_by(one: Walked, other: Walked) -> Walked
    ensures { walked_data result ≡ side_by (walked_data one) (walked_data other) }
{
    Walked {
        degree: beside(one.degree, other.degree),
        first: former(one.first, other.first),
        fault: sooner(one.fault, other.fault),
        behind: other.behind,
    }
}

/// Behind the end of what was opened.
pub fn closed(found: Walked) -> Result<Walked, OutOfMemory>
    ensures { IfOk result (λ w. walked_data w ≡ closed (walked_data found)) }
{
    Ok(Walked {
        degree: found.degree,
        first: found.first,
        fault: found.fault,
        behind: plus(found.behind, 1)?,
    })
}

/// Under a quantifier.
pub fn all_group(found: Walked) -> Walked
    ensures { walked_data result ≡ all_group (walked_data found) }
{
    Walked {
        degree: repeated(found.degree),
        first: found.first,
        fault: found.fault,
        behind: found.behind,
    }
}

/// Under `?`.
pub fn all_optional(found: Walked) -> Walked
    ensures { walked_data result ≡ all_optional (walked_data found) }
{
    Walked {
        degree: optional(found.degree),
        first: found.first,
        fault: found.fault,
        behind: found.behind,
    }
}

/// A part behind others in a row, which is at fault where its degree is at fault with one of theirs.
pub fn against(join: Join, before: Before, found: Walked) -> Walked
    ensures { walked_data result ≡ against (at_fault join) (before_data before) (walked_data found) }
{
    let place = place_if(is_behind_fault(join, before, found.degree), found.first);
    Walked {
        degree: found.degree,
        first: found.first,
        fault: sooner(found.fault, place),
        behind: found.behind,
    }
}

/// The place, if the name is at fault.
pub fn place_if(is_fault: bool, place: Option<u64>) -> Option<u64>
    ensures { result ≡ place_if is_fault place }
{
    if is_fault { place } else { None }
}

/// The lesser of two places.
pub fn sooner(a: Option<u64>, b: Option<u64>) -> Option<u64>
    ensures { result ≡ sooner a b }
{
    match (a, b) {
        (None, _) => b,
        (_, None) => a,
        (Some(a), Some(b)) => Some(a.min(b)),
    }
}

/// The former of two places.
fn former(a: Option<u64>, b: Option<u64>) -> Option<u64>
    ensures { result ≡ former a b }
{
    match a {
        Some(_) => a,
        None => b,
    }
}
