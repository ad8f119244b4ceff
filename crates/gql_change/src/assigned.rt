//! The changes that SET and REMOVE make.

ghost use Rattle.std.specs.Prelude.{◌≡◌, IfOk, OnOk, IsTrue};
ghost use Rattle.gql_values3.specs.PropertyGraph.{is_graph};
ghost use Rattle.gql_change.specs.AssignedGraph.{assigned};
ghost use Rattle.gql_eval.specs.StableSort.{stably_sorted};
ghost use Rattle.gql_change.specs.Machinery.Building.{target_before, built, built_with, built_from};
ghost use Rattle.gql_change.specs.Machinery.BuildingState.{built_so_far};
ghost use Rattle.gql_change.specs.Plans.{LeadTo};
ghost use Rattle.gql_change.specs.Machinery.Swaps.{all_fit};

use crate::assignment::{Act, Assignment};
use crate::conflict::{element_order, same_element};
use crate::swapping::push_swap;
use gql_graph::Changes;
use gql_values3::{Elem, OutOfMemory, View};
use std::alloc::Global;
use std::mem;

/// The changes so far, the element that is at hand, and its acts.
#[derive(Drop)]
pub struct Building {
    pub changes: Changes,
    pub target: Elem,
    pub acts: Vec<Act>,
}

/// One change for each element that something is done to: it puts the element's acts on it in the order in which they
/// were given. The elements are in the graph, and what they get may be stored.
pub fn assigned_changes<V: View>(
    alloc: Global,
    view: &V,
    assignments: Vec<Assignment>,
) -> Result<Changes, OutOfMemory>
    requires { IsTrue (all_fit (V.graph view.now) assignments.items) }
    ensures { IfOk result (λ changes. LeadTo (V.graph view.now) changes (assigned assignments.items (V.graph view.now))) }
{
    let _count = view.node_count();
    let sorted = by_element(assignments)?;
    let target = match sorted.first() {
        Some(first) => first.target,
        None => return Ok(Changes::new(alloc)),
    };
    changes_in_order(alloc, view, target, sorted)
}

/// The assignments in the order of their elements. Those of one element stand as they stood.
fn by_element(assignments: Vec<Assignment>) -> Result<Vec<Assignment>, OutOfMemory>
    ensures { IfOk result (λ all. all.items ≡ stably_sorted target_before assignments.items) }
{
    let mut all = assignments;
    all.sort_by(|a, b| element_order(a.target, b.target))?;
    Ok(all)
}

fn changes_in_order<V: View>(
    alloc: Global,
    view: &V,
    first: Elem,
    sorted: Vec<Assignment>,
) -> Result<Changes, OutOfMemory>
    requires { IsTrue (is_graph (V.graph view.now)) }
    ensures { IfOk result (λ changes. changes ≡ built (V.graph view.now) (built_from first) sorted.items) }
{
    let mut building = Building {
        changes: Changes::new(alloc),
        target: first,
        acts: Vec::new(alloc),
    };
    for assignment in sorted {
        add(alloc, view, &mut building, assignment)?;
    }
    let Building {
        mut changes,
        target,
        acts,
    } = building;
    push_swap(alloc, view, target, acts, &mut changes)?;
    Ok(changes)
}

/// Takes one act more. That on another element ends the one at hand.
fn add<V: View>(
    alloc: Global,
    view: &V,
    building: &mut Building,
    assignment: Assignment,
) -> Result<(), OutOfMemory>
    requires { IsTrue (is_graph (V.graph view.now)) }
    ensures { OnOk result (built_so_far building.new ≡ built_with (V.graph view.now) (built_so_far building.old) assignment) }
{
    let Assignment { target, act } = assignment;
    if !same_element(target, building.target) {
        let acts = mem::replace(&mut building.acts, Vec::new(alloc));
        push_swap(alloc, view, building.target, acts, &mut building.changes)?;
        building.target = target;
    }
    building.acts.push(act)?;
    Ok(())
}
