//! SET and REMOVE: the changes that their assignments come to, or the refusal of two that conflict.

ghost use Rattle.std.specs.Prelude.{IsTrue};
ghost use Rattle.gql_change.specs.AssignedGraph.{assigned};
ghost use Rattle.gql_change.specs.Assignments.{set_assignments, remove_assignments};
ghost use Rattle.gql_change.specs.Changing.{changed_by_assignments, refused_by};
ghost use Rattle.gql_change.specs.Conflicts.{conflict_among};
ghost use Rattle.gql_change.specs.Plans.{Plans};
ghost use Rattle.gql_eval.specs.RowLists.{RowList};
ghost use Rattle.gql_change.specs.Machinery.Swaps.{all_fit};

use crate::assigned::assigned_changes;
use crate::assigning::{remove_assignments, set_assignments};
use crate::assignment::Assignment;
use crate::basis::Basis;
use crate::conflict::conflict_among;
use crate::fault::ChangeFault;
use gql_ast::{RemoveItem, SetItem};
use gql_graph::Changes;
use gql_values3::{Rows, View};
use std::alloc::Global;

/// The changes of SET. All expressions are evaluated on the graph as it is, rows in order and items in the order of the
/// text, and their first fault comes before a conflict. The rows stay.
pub fn plan_set<V: View>(
    basis: &Basis<V>,
    rows: &Rows,
    items: &[SetItem],
) -> Result<Changes, ChangeFault>
    ensures { Plans (λ c. (c, rows.now)) (V.graph basis.now.view.now) result (changed_by_assignments (V.graph basis.now.view.now) basis.now.params.now basis.now.columns.now rows.now (set_assignments (V.graph basis.now.view.now) basis.now.params.now basis.now.columns.now items.now rows.now)) }
{
    let assignments = set_assignments(basis, rows, items)?;
    plan_assignments(basis.alloc, basis.view, assignments.into_vec())
}

/// The changes of REMOVE, by the same rules.
pub fn plan_remove<V: View>(
    basis: &Basis<V>,
    rows: &Rows,
    items: &[RemoveItem],
) -> Result<Changes, ChangeFault>
    ensures { Plans (λ c. (c, rows.now)) (V.graph basis.now.view.now) result (changed_by_assignments (V.graph basis.now.view.now) basis.now.params.now basis.now.columns.now rows.now (remove_assignments (V.graph basis.now.view.now) basis.now.params.now basis.now.columns.now items.now rows.now)) }
{
    let assignments = remove_assignments(basis, rows, items)?;
    plan_assignments(basis.alloc, basis.view, assignments.into_vec())
}

/// The changes that make the assignments, unless two of them are in conflict. Whatever the rows are, they stay.
fn plan_assignments<V: View>(
    alloc: Global,
    view: &V,
    assignments: Vec<Assignment>,
) -> Result<Changes, ChangeFault>
    requires { IsTrue (all_fit (V.graph view.now) assignments.items) }
    ensures { (rows : RowList) → Plans (λ c. (c, rows)) (V.graph view.now) result (refused_by (conflict_among assignments.items) (assigned assignments.items (V.graph view.now), rows)) }
{
    match conflict_among(alloc, assignments.as_slice())? {
        Some(refusal) => Err(ChangeFault::Refused(refusal)),
        None => Ok(assigned_changes(alloc, view, assignments)?),
    }
}
