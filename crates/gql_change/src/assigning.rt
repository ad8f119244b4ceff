//! What SET and REMOVE do to which elements.

ghost use Rattle.std.specs.Prelude.{◌≡◌, ◌++◌, option_to_list, OnOk};
ghost use Rattle.gql_eval.specs.Gives.{Gives};
ghost use Rattle.gql_eval.specs.RowLists.{each_some};
ghost use Rattle.gql_change.specs.Assignments.{set_assignments, remove_assignments};
ghost use Rattle.gql_change.specs.Machinery.PreparedItems.{act_in, all_in, item_in};
ghost use Rattle.gql_change.specs.declared.prepared_item.PreparedAct.TheVariants as prepared_act;

use crate::assignment::{Act, Assignment};
use crate::basis::Basis;
use crate::prepared_item::{PreparedAct, PreparedItem, prepare_removals, prepare_sets};
use crate::prepared_property::{PreparedProperty, value_in};
use crate::storing::is_storable;
use crate::target::target_at;
use gql_ast::{DataFault, RemoveItem, SetItem};
use gql_eval::EvalError;
use gql_values3::{Elem, OutOfMemory, Row, Rows, Sequence, Value, View};
use std::alloc::Global;

/// Acts on elements, in the order in which rows and items give them.
pub type Assignments = Sequence<Assignment>;

/// What SET does: rows in order, and the items of each in the order of the text.
pub fn set_assignments<V: View>(
    basis: &Basis<V>,
    rows: &Rows,
    items: &[SetItem],
) -> Result<Assignments, EvalError>
    ensures { Gives (λ a. a) result (set_assignments (V.graph basis.now.view.now) basis.now.params.now basis.now.columns.now items.now rows.now) }
{
    let prepared = prepare_sets(basis.alloc, basis.columns, basis.params, items)?;
    assignments_of(basis.alloc, basis.view, rows, prepared.as_slice())
}

/// What REMOVE does, by the same rules.
pub fn remove_assignments<V: View>(
    basis: &Basis<V>,
    rows: &Rows,
    items: &[RemoveItem],
) -> Result<Assignments, EvalError>
    ensures { Gives (λ a. a) result (remove_assignments (V.graph basis.now.view.now) basis.now.params.now basis.now.columns.now items.now rows.now) }
{
    let prepared = prepare_removals(basis.alloc, basis.columns, items)?;
    assignments_of(basis.alloc, basis.view, rows, prepared.as_slice())
}

/// What the items do in the rows.
fn assignments_of<V: View>(
    alloc: Global,
    view: &V,
    rows: &Rows,
    items: &[PreparedItem],
) -> Result<Assignments, EvalError>
    ensures { Gives (λ a. a) result (each_some (all_in items.now (V.graph view.now)) rows.now) }
{
    let rows = rows.as_slice();
    let mut done = Assignments::new(alloc);
    for i in 0..rows.len() {
        let more = assignments_in(alloc, view, &rows[i], items)?;
        done.extend(more)?;
    }
    Ok(done)
}

/// What the items do in a row.
fn assignments_in<V: View>(
    alloc: Global,
    view: &V,
    row: &Row,
    items: &[PreparedItem],
) -> Result<Assignments, EvalError>
    ensures { Gives (λ a. a) result (all_in items.now (V.graph view.now) row.now) }
{
    let mut done = Assignments::new(alloc);
    for i in 0..items.len() {
        let more = assignment_in(alloc, view, row, &items[i])?;
        push_some(&mut done, more)?;
    }
    Ok(done)
}

/// What an item does in a row. The target is looked at before the expression.
fn assignment_in<V: View>(
    alloc: Global,
    view: &V,
    row: &Row,
    item: &PreparedItem,
) -> Result<Option<Assignment>, EvalError>
    ensures { Gives option_to_list result (item_in item.now (V.graph view.now) row.now) }
{
    let target = target_at(view, row, item.target)?;
    on_target(alloc, view, row, target, &item.act)
}

/// What is done to an element. To NULL nothing is.
fn on_target<V: View>(
    alloc: Global,
    view: &V,
    row: &Row,
    target: Option<Elem>,
    act: &PreparedAct,
) -> Result<Option<Assignment>, EvalError>
    ensures { Gives option_to_list result (act_in act.now target (V.graph view.now) row.now) }
{
    match act {
        PreparedAct::Property(property) => set_property(alloc, view, row, target, property),
        PreparedAct::NoProperty(name) => match target {
            None => Ok(None),
            Some(target) => Ok(Some(Assignment {
                target,
                act: Act::Property(name.try_copy(alloc)?, Value::Null),
            })),
        },
        PreparedAct::Label(label) => match target {
            None => Ok(None),
            Some(target) => Ok(Some(Assignment {
                target,
                act: Act::Label(label.try_copy(alloc)?),
            })),
        },
        PreparedAct::NoLabel(label) => match target {
            None => Ok(None),
            Some(target) => Ok(Some(Assignment {
                target,
                act: Act::NoLabel(label.try_copy(alloc)?),
            })),
        },
    }
}

/// The expression is evaluated whatever the target is, and only what is done to an element has to be storable.
fn set_property<V: View>(
    alloc: Global,
    view: &V,
    row: &Row,
    target: Option<Elem>,
    property: &PreparedProperty,
) -> Result<Option<Assignment>, EvalError>
    ensures { Gives option_to_list result (act_in (prepared_act.Property property.now) target (V.graph view.now) row.now) }
{
    let value = value_in(alloc, view, row, property)?;
    match target {
        None => Ok(None),
        Some(target) => {
            if !is_storable(&value) {
                return Err(EvalError::Fault(DataFault::WrongKind));
            }
            let name = property.name.try_copy(alloc)?;
            Ok(Some(Assignment {
                target,
                act: Act::Property(name, value),
            }))
        }
    }
}

/// Adds at the end.
fn push_some(done: &mut Assignments, more: Option<Assignment>) -> Result<(), OutOfMemory>
    ensures { OnOk result (done.new ≡ done.old ++ option_to_list more) }
{
    match more {
        None => Ok(()),
        Some(assignment) => done.push(assignment),
    }
}
