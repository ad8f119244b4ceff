//! Degrees that a name has in parts before, and which two degrees are at fault.

ghost use Rattle.std.specs.Prelude.{◌≡◌};
ghost use Rattle.gql_degrees.specs.Machinery.JoinData.{at_fault, before_data};
ghost use Rattle.gql_degrees.specs.Machinery.JoinWalk.{and_degree, is_behind_fault, none_before};

use gql_norm::Degree;

/// Which two degrees of a name are at fault.
#[derive(Clone, Copy, Debug, PartialEq, Eq)]
pub enum Join {
    /// Those of which one is a group.
    Group,
    /// Those of which none is a group, and one is conditional.
    Conditional,
}

/// Which degrees a name has in parts before. Its meaning is `before_data`.
#[derive(Clone, Copy, Debug, PartialEq, Eq)]
pub struct Before {
    pub singleton: bool,
    pub conditional: bool,
    pub group: bool,
}

/// No part stands before.
pub fn none_before() -> Before
    ensures { before_data result ≡ none_before }
{
    Before {
        singleton: false,
        conditional: false,
        group: false,
    }
}

/// A part more, if it declares the name.
pub fn and_degree(before: Before, degree: Option<Degree>) -> Before
    ensures { before_data result ≡ and_degree (before_data before) degree }
{
    let mut after = before;
    match degree {
        Some(Degree::Singleton) => after.singleton = true,
        Some(Degree::Conditional) => after.conditional = true,
        Some(Degree::Group) => after.group = true,
        None => {}
    }
    after
}

/// Whether a degree is at fault with one before.
pub fn is_behind_fault(join: Join, before: Before, degree: Option<Degree>) -> bool
    ensures { result ≡ is_behind_fault (at_fault join) (before_data before) degree }
{
    match degree {
        Some(degree) => {
            (before.singleton && are_faulty(join, Degree::Singleton, degree))
                || ((before.conditional && are_faulty(join, Degree::Conditional, degree))
                    || (before.group && are_faulty(join, Degree::Group, degree)))
        }
        None => false,
    }
}

/// Whether two degrees of a name are at fault.
pub fn are_faulty(join: Join, a: Degree, b: Degree) -> bool
    ensures { result ≡ at_fault join a b }
{
    match (join, a, b) {
        (Join::Group, Degree::Group, _) | (Join::Group, _, Degree::Group) => true,
        (Join::Group, _, _) => false,
        (Join::Conditional, Degree::Group, _) | (Join::Conditional, _, Degree::Group) => false,
        (Join::Conditional, Degree::Singleton, Degree::Singleton) => false,
        (Join::Conditional, _, _) => true,
    }
}
