//! The degree of each name of a part: a part of one element has its name alone, and of others a map has them.

ghost use Rattle.std.specs.Prelude.{◌≡◌, IfOk};
ghost use Rattle.gql_norm.specs.Degree.{degree_of, element_degree};
ghost use Rattle.gql_norm.specs.NormalData.{part_data};
ghost use Rattle.gql_combine.specs.Machinery.PartDegrees.{part_degree};

use crate::degree_walk::degrees_of;
use crate::name_degrees::{NameDegrees, degree_at};
use gql_norm::{Degree, Part, copied_name};
use gql_values3::{OutOfMemory, Text};
use std::alloc::Global;

/// The degree of each name that a part declares. Its meaning is `part_degree`.
#[derive(Drop)]
pub enum PartDegrees {
    /// One element, whose name, if it has one, is a singleton.
    One(Option<Text>),
    /// Other parts.
    Several(NameDegrees),
}

/// The degree of each name that the part declares. One element makes no map.
pub fn part_degrees(alloc: Global, part: &Part) -> Result<PartDegrees, OutOfMemory>
    ensures { IfOk result (λ degrees. (x : _) → part_degree degrees x ≡ degree_of (part_data part.now) x) }
{
    match part {
        Part::Node(element) | Part::Edge(_, element) => {
            Ok(PartDegrees::One(copied_name(alloc, &element.variable)?))
        }
        _ => Ok(PartDegrees::Several(degrees_of(alloc, part)?)),
    }
}

/// The degree of a name, or None where it isn't declared.
pub fn degree_of_name(degrees: &PartDegrees, name: &str) -> Option<Degree>
    ensures { result ≡ part_degree degrees.now name.now }
{
    match degrees {
        PartDegrees::One(own) => own_degree(own, name),
        PartDegrees::Several(degrees) => degree_at(degrees, name),
    }
}

/// The degree of a name in one element.
fn own_degree(own: &Option<Text>, name: &str) -> Option<Degree>
    ensures { result ≡ element_degree own.now name.now }
{
    match own {
        Some(own) => {
            if name == own.as_str() {
                return Some(Degree::Singleton);
            }
            None
        }
        None => None,
    }
}
