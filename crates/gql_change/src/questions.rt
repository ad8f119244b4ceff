//! What the columns alone tell of an INSERT. Names are looked up here, once for the clause and in one walk: the columns behind
//! it, whether its endpoints are nodes, and what is asked of each row.

ghost use Rattle.std.specs.Prelude.{◌≡◌, [], ◌∷◌, ◌++◌, ◌&&◌, map, IfOk, OnOk};
ghost use Rattle.gql_ast.specs.Endpoints.{wrong_endpoint, wrong_in_spots};
ghost use Rattle.gql_ast.specs.InsertColumns.{insert_spots, path_spots, step_spots, spot_columns, with_variable};
ghost use Rattle.gql_eval.specs.Machinery.Places.{place_among};
ghost use Rattle.gql_change.specs.Changing.{is_empty};
ghost use Rattle.gql_change.specs.Insertion.{items_in};
ghost use Rattle.gql_change.specs.Machinery.Roles.{question_of, questions, role_of, role_there};

use crate::columns::past_spot;
use crate::role::Role;
use crate::spot_question::SpotQuestion;
use gql_ast::{Fill, InsertPath, InsertStep, Map, MapItem};
use gql_eval::{Heading, copied_columns};
use gql_values3::{ColumnKind, Columns, OutOfMemory, Text};
use std::alloc::Global;

/// What the columns alone tell of an INSERT.
#[derive(Drop)]
pub struct Outline<'a> {
    /// The columns behind it.
    pub names: Heading,
    /// Whether each endpoint that stands already is a column of nodes.
    pub fits: bool,
    /// What is asked of each spot, in the order of the text.
    pub asked: Vec<SpotQuestion<'a>>,
}

/// Goes over the paths of an INSERT once.
pub fn outline_of<'a>(
    alloc: Global,
    columns: &Columns,
    paths: &'a [InsertPath],
) -> Result<Outline<'a>, OutOfMemory>
    ensures columns { IfOk result (λ o. o.names ≡ spot_columns columns.now (insert_spots paths.now)) }
    ensures kinds { IfOk result (λ o. o.fits ≡ is_empty (wrong_in_spots columns.now (insert_spots paths.now))) }
    ensures asked { IfOk result (λ o. map question_of o.asked.items ≡ questions columns.now (insert_spots paths.now)) }
{
    let mut asked = Vec::new(alloc);
    let heading = Heading::new(alloc, copied_columns(alloc, columns.as_slice())?)?;
    let mut so_far = (heading, true);
    for i in 0..paths.len() {
        let path = &paths[i];
        so_far = ask_path(alloc, so_far, &mut asked, path)?;
    }
    let (names, fits) = so_far;
    Ok(Outline { names, fits, asked })
}

/// Adds the questions of a path; answers the columns behind it, and whether its endpoints are nodes too.
fn ask_path<'a>(
    alloc: Global,
    so_far: (Heading, bool),
    asked: &mut Vec<SpotQuestion<'a>>,
    path: &'a InsertPath,
) -> Result<(Heading, bool), OutOfMemory>
    ensures behind { IfOk result (λ p. (p.0 ≡ spot_columns so_far.0 (path_spots path.now)) × (p.1 ≡ (so_far.1 && is_empty (wrong_in_spots so_far.0 (path_spots path.now))))) }
    ensures asked { OnOk result (map question_of asked.new.items ≡ map question_of asked.old.items ++ questions so_far.0 (path_spots path.now)) }
{
    let mut more = ask(alloc, so_far, asked, ColumnKind::Node, &path.start)?;
    let steps = path.steps.as_slice();
    for i in 0..steps.len() {
        let step = &steps[i];
        more = ask_step(alloc, more, asked, step)?;
    }
    Ok(more)
}

fn ask_step<'a>(
    alloc: Global,
    so_far: (Heading, bool),
    asked: &mut Vec<SpotQuestion<'a>>,
    step: &'a InsertStep,
) -> Result<(Heading, bool), OutOfMemory>
    ensures behind { IfOk result (λ p. (p.0 ≡ spot_columns so_far.0 (step_spots step.now)) × (p.1 ≡ (so_far.1 && is_empty (wrong_in_spots so_far.0 (step_spots step.now))))) }
    ensures asked { OnOk result (map question_of asked.new.items ≡ map question_of asked.old.items ++ questions so_far.0 (step_spots step.now)) }
{
    let behind_edge = ask(alloc, so_far, asked, ColumnKind::Edge, &step.edge)?;
    let behind_node = ask(alloc, behind_edge, asked, ColumnKind::Node, &step.node)?;
    Ok(behind_node)
}

/// Adds the question of a spot; answers the same.
fn ask<'a>(
    alloc: Global,
    so_far: (Heading, bool),
    asked: &mut Vec<SpotQuestion<'a>>,
    kind: ColumnKind,
    fill: &'a Fill,
) -> Result<(Heading, bool), OutOfMemory>
    ensures behind { IfOk result (λ p. (p.0 ≡ with_variable so_far.0 kind fill.now.variable) × (p.1 ≡ (so_far.1 && is_empty (wrong_endpoint so_far.0 kind fill.now.variable)))) }
    ensures asked { OnOk result (map question_of asked.new.items ≡ map question_of asked.old.items ++ (role_of so_far.0 kind fill.now.variable, items_in fill.now.map) ∷ []) }
{
    let role = role_of(&so_far.0, kind, &fill.variable);
    let items = items_of(&fill.map);
    asked.push(SpotQuestion { role, items })?;
    past_spot(alloc, so_far, kind, fill)
}

fn items_of<'a>(map: &'a Option<Map>) -> &'a [MapItem]
    ensures { result.now ≡ items_in map.now }
{
    match map {
        None => &[],
        Some(items) => items.as_slice(),
    }
}

/// The role of a spot with this variable.
fn role_of(names: &Heading, kind: ColumnKind, variable: &Option<Text>) -> Role
    ensures { result ≡ role_of names.now kind variable.now }
{
    let Some(name) = variable else {
        return Role::New { named: false };
    };
    match names.place_of(name.as_str()) {
        Some(place) => role_there(kind, place),
        None => Role::New { named: true },
    }
}

/// The role of a spot whose variable is that of the column of a place.
fn role_there(kind: ColumnKind, place: usize) -> Role
    ensures { result ≡ role_there kind place }
{
    match kind {
        ColumnKind::Node => Role::Refers(place),
        _ => Role::New { named: false },
    }
}
