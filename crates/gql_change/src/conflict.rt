//! Two values for one property of one element that differ.

ghost use Rattle.std.specs.Prelude.{◌≡◌, map, take, IfOk};
ghost use Rattle.gql_values3.specs.Meaning.{datum_of};
ghost use Rattle.gql_change.specs.Conflicts.{elem_cmp, act_cmp, assignment_cmp, same_elem, conflict_of, act_conflict, neighbours_conflict, conflict_among};
ghost use Rattle.gql_change.specs.declared.assignment.Act.TheVariants as act;

use crate::assignment::{Act, Assignment};
use gql_ast::Refusal;
use gql_values3::{Elem, OutOfMemory, Text, Value, total_cmp};
use std::alloc::Global;
use std::cmp::Ordering;

/// The first conflict: that of the first element, nodes before edges, and of its first property, by its first value and
/// the first that differs from it. Nothing is copied but what the refusal says.
pub fn conflict_among(
    alloc: Global,
    assignments: &[Assignment],
) -> Result<Option<Refusal>, OutOfMemory>
    ensures { IfOk result (λ refusal. refusal ≡ conflict_among assignments.now) }
{
    let mut sorted = references(alloc, assignments)?;
    sorted.sort_by(|a, b| assignment_order(*a, *b))?;
    neighbours_conflict(alloc, sorted.as_slice())
}

fn references<'a>(
    alloc: Global,
    assignments: &'a [Assignment],
) -> Result<Vec<&'a Assignment>, OutOfMemory>
    ensures { IfOk result (λ all. map (λ r. r.now) all.items ≡ assignments.now) }
{
    let mut all = Vec::new(alloc);
    for i in 0..assignments.len() {
        all.push(&assignments[i])?;
    }
    Ok(all)
}

/// The first two neighbours that differ.
fn neighbours_conflict(
    alloc: Global,
    sorted: &[&Assignment],
) -> Result<Option<Refusal>, OutOfMemory>
    ensures { IfOk result (λ refusal. refusal ≡ neighbours_conflict (map (λ r. r.now) sorted.now)) }
{
    for i in 0..sorted.len().saturating_sub(1) {
        match conflict_of(alloc, sorted[i], sorted[i + 1])? {
            Some(refusal) => return Ok(Some(refusal)),
            None => {}
        }
    }
    Ok(None)
}

fn conflict_of(
    alloc: Global,
    a: &Assignment,
    b: &Assignment,
) -> Result<Option<Refusal>, OutOfMemory>
    ensures { IfOk result (λ refusal. refusal ≡ conflict_of a.now b.now) }
{
    if !same_element(a.target, b.target) {
        return Ok(None);
    }
    match (&a.act, &b.act) {
        (Act::Property(name, first), Act::Property(other, second)) => {
            value_conflict(alloc, a.target, name, first, other, second)
        }
        _ => Ok(None),
    }
}

fn value_conflict(
    alloc: Global,
    elem: Elem,
    name: &Text,
    first: &Value,
    other: &Text,
    second: &Value,
) -> Result<Option<Refusal>, OutOfMemory>
    ensures { IfOk result (λ refusal. refusal ≡ act_conflict elem (act.Property name.now first.now) (act.Property other.now second.now)) }
{
    if name.as_str() != other.as_str() {
        return Ok(None);
    }
    if total_cmp(first, second) == Ordering::Equal {
        return Ok(None);
    }
    Ok(Some(Refusal::Conflict {
        elem,
        property: name.try_copy(alloc)?,
        first: first.try_copy(alloc)?,
        second: second.try_copy(alloc)?,
    }))
}

/// Whether they are one element.
pub fn same_element(a: Elem, b: Elem) -> bool
    ensures { result ≡ same_elem a b }
{
    match (a, b) {
        (Elem::Node(a), Elem::Node(b)) => a.0 == b.0,
        (Elem::Edge(a), Elem::Edge(b)) => a.0 == b.0,
        _ => false,
    }
}

/// Nodes before edges, each by number.
pub fn element_order(a: Elem, b: Elem) -> Ordering
    ensures { result ≡ elem_cmp a b }
{
    match (a, b) {
        (Elem::Node(a), Elem::Node(b)) => a.0.cmp(&b.0),
        (Elem::Node(_), Elem::Edge(_)) => Ordering::Less,
        (Elem::Edge(_), Elem::Node(_)) => Ordering::Greater,
        (Elem::Edge(a), Elem::Edge(b)) => a.0.cmp(&b.0),
    }
}

/// By element, and then by the property's name, before labels.
fn assignment_order(a: &Assignment, b: &Assignment) -> Ordering
    ensures { result ≡ assignment_cmp a.now b.now }
{
    match element_order(a.target, b.target) {
        Ordering::Equal => act_order(&a.act, &b.act),
        order => order,
    }
}

fn act_order(a: &Act, b: &Act) -> Ordering
    ensures { result ≡ act_cmp a.now b.now }
{
    match (a, b) {
        (Act::Property(name, _), Act::Property(other, _)) => name.cmp(other),
        (Act::Property(_, _), _) => Ordering::Less,
        (_, Act::Property(_, _)) => Ordering::Greater,
        _ => Ordering::Equal,
    }
}
