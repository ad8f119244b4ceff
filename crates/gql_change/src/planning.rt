//! What a clause that changes data comes to.

ghost use Rattle.std.specs.Prelude.{◌≡◌, ◌==◌, length, map, IfOk, IsTrue};
ghost use Rattle.std.specs.List.{list_all};
ghost use Rattle.gql_ast.specs.declared.change.ChangeClause.TheVariants.{Insert as insert_clause};
ghost use Rattle.gql_ast.specs.Endpoints.{wrong_in_spots};
ghost use Rattle.gql_ast.specs.InsertColumns.{change_columns, insert_spots};
ghost use Rattle.gql_eval.specs.RowLists.{rows_fit};
ghost use Rattle.gql_change.specs.Changing.{change_of, changed_by_insert, has_endpoints, is_empty};
ghost use Rattle.gql_change.specs.Machinery.Roles.{question_of, questions};
ghost use Rattle.gql_change.specs.Plans.{Plans};

use crate::basis::Basis;
use crate::deletion::plan_delete;
use crate::fault::ChangeFault;
use crate::insert::plan_insert;
use crate::list::ChangeList;
use crate::questions::{Outline, outline_of};
use crate::set_clause::{plan_remove, plan_set};
use crate::spot_question::SpotQuestion;
use gql_ast::{ChangeClause, DataFault, InsertPath, Refusal};
use gql_eval::{Heading, copied_columns};
use gql_graph::Changes;
use gql_values3::{Columns, Params, Row, Rows, View};
use std::alloc::Global;

/// What a clause comes to: the changes of the graph, and the columns and rows behind it.
#[derive(Drop)]
pub struct Planned {
    pub list: ChangeList,
    pub columns: Columns,
    pub rows: Rows,
}

/// Plans a clause over the graph of a view, and rows with their columns. Nothing is changed.
///
/// Ok holds changes that can act one after the other. `Refused` is E18 with the first fault of an expression, rows in
/// order and, within a row, in the order of the text; else E20 of DELETE, E21 of SET, E24 of INSERT, with the least
/// element at fault. Rows that fit their columns become rows that fit the columns behind the clause.
pub fn plan<V: View>(
    alloc: Global,
    view: &V,
    columns: &Columns,
    rows: Rows,
    params: &Params,
    clause: &ChangeClause,
) -> Result<Planned, ChangeFault>
    ensures change { Plans (λ p. (p.list, p.rows)) (V.graph view.now) result (change_of (V.graph view.now) params.now columns.now rows clause.now) }
    ensures columns { IfOk result (λ p. p.columns ≡ change_columns columns.now clause.now) }
    ensures fit { IsTrue (rows_fit columns.now rows) → IfOk result (λ p. IsTrue (rows_fit p.columns p.rows)) }
{
    let basis = Basis {
        alloc,
        view,
        columns,
        params,
    };
    plan_clause(&basis, rows, clause)
}

fn plan_clause<'a, V: View>(
    basis: &Basis<'a, V>,
    rows: Rows,
    clause: &'a ChangeClause,
) -> Result<Planned, ChangeFault>
    ensures change { Plans (λ p. (p.list, p.rows)) (V.graph basis.now.view.now) result (change_of (V.graph basis.now.view.now) basis.now.params.now basis.now.columns.now rows clause.now) }
    ensures columns { IfOk result (λ p. p.columns ≡ change_columns basis.now.columns.now clause.now) }
{
    let (changes, wider, rows) = changes_of(basis, rows, clause)?;
    let list = ChangeList::of(basis.alloc, changes)?;
    Ok(Planned {
        list,
        columns: wider,
        rows,
    })
}

/// The changes of a clause, and the columns and rows behind it.
fn changes_of<'a, V: View>(
    basis: &Basis<'a, V>,
    rows: Rows,
    clause: &'a ChangeClause,
) -> Result<(Changes, Columns, Rows), ChangeFault>
    ensures change { Plans (λ p. (p.0, p.2)) (V.graph basis.now.view.now) result (change_of (V.graph basis.now.view.now) basis.now.params.now basis.now.columns.now rows clause.now) }
    ensures columns { IfOk result (λ p. p.1 ≡ change_columns basis.now.columns.now clause.now) }
{
    match clause {
        ChangeClause::Insert(paths) => { insert(basis, rows, paths.as_slice()) }
        ChangeClause::Set(items) => {
            let changes = plan_set(basis, &rows, items.as_slice())?;
            let same = copied_columns(basis.alloc, basis.columns.as_slice())?;
            Ok((changes, same, rows))
        }
        ChangeClause::Remove(items) => {
            let changes = plan_remove(basis, &rows, items.as_slice())?;
            let same = copied_columns(basis.alloc, basis.columns.as_slice())?;
            Ok((changes, same, rows))
        }
        ChangeClause::Delete(detachment, names) => {
            let changes = plan_delete(basis, &rows, *detachment, names.as_slice())?;
            let same = copied_columns(basis.alloc, basis.columns.as_slice())?;
            Ok((changes, same, rows))
        }
    }
}

/// The changes of an INSERT, its columns and its rows. Rows that aren't as wide as their columns, or an endpoint that is a
/// column of another kind than a node's, are a wrong kind; no statement without a static refusal has them.
fn insert<'a, V: View>(
    basis: &Basis<'a, V>,
    rows: Rows,
    paths: &'a [InsertPath],
) -> Result<(Changes, Columns, Rows), ChangeFault>
    ensures change { Plans (λ p. (p.0, p.2)) (V.graph basis.now.view.now) result (change_of (V.graph basis.now.view.now) basis.now.params.now basis.now.columns.now rows (insert_clause paths.now)) }
    ensures columns { IfOk result (λ p. p.1 ≡ change_columns basis.now.columns.now (insert_clause paths.now)) }
{
    let Outline { names, fits, asked } = outline_of(basis.alloc, basis.columns, paths)?;
    if have_endpoints(basis.columns, rows.as_slice(), paths, fits) {
        insert_outlined(basis, rows, paths, names, asked.as_slice())
    } else {
        Err(ChangeFault::Refused(Refusal::Fault(DataFault::WrongKind)))
    }
}

/// The same where the guard of INSERT holds, with what its names tell.
fn insert_outlined<'a, V: View>(
    basis: &Basis<'a, V>,
    rows: Rows,
    paths: &[InsertPath],
    names: Heading,
    asked: &[SpotQuestion<'a>],
) -> Result<(Changes, Columns, Rows), ChangeFault>
    requires guard { IsTrue (has_endpoints basis.now.columns.now rows paths.now) }
    requires asked { map question_of asked.now ≡ questions basis.now.columns.now (insert_spots paths.now) }
    ensures change { Plans (λ p. (p.0, p.2)) (V.graph basis.now.view.now) result (changed_by_insert (V.graph basis.now.view.now) basis.now.params.now basis.now.columns.now rows paths.now) }
    ensures columns { IfOk result (λ p. p.1 ≡ names) }
{
    let (changes, rows) = plan_insert(basis, rows, paths, asked)?;
    let wider = names.into_columns();
    Ok((changes, wider, rows))
}

/// Whether the guard of INSERT holds, where it is known of its endpoints.
fn have_endpoints(columns: &Columns, rows: &[Row], paths: &[InsertPath], fits: bool) -> bool
    requires { fits ≡ is_empty (wrong_in_spots columns.now (insert_spots paths.now)) }
    ensures { result ≡ has_endpoints columns.now rows.now paths.now }
{
    are_as_wide(rows, columns.len()) && fits
}

/// Whether each row has so many values.
fn are_as_wide(rows: &[Row], width: usize) -> bool
    ensures { result ≡ list_all (λ row. length row == width) rows.now }
{
    rows.iter().all(|row| row.len() == width)
}
