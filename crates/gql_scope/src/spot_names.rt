//! E08 and E09 at a node or an edge of an INSERT, whose variable is looked up once: one that stands already may stand at a node
//! without labels and a map alone, and has to be a node.

ghost use Rattle.std.specs.Prelude.{◌≡◌, [], ◌∷◌, ◌++◌, Some, None, OnOk, if◌then◌else◌};
ghost use Rattle.std.specs.Option.{option_or};
ghost use Rattle.gql_ast.specs.Endpoints.{is_node, wrong_endpoint};
ghost use Rattle.gql_ast.specs.InsertColumns.{with_variable};
ghost use Rattle.gql_expr_checks.specs.Refusals.{refusal_of_first};
ghost use Rattle.gql_expr_checks.specs.Gives.{Gives};
ghost use Rattle.gql_scope.specs.UnknownNames.{may_refer, misplaced, unknown_in_map};
ghost use Rattle.gql_scope.specs.Machinery.Questions.{unknown_at, wrong_at};

use crate::refusals::keep;
use crate::standing::standing;
use crate::unknown_names::check_map;
use gql_ast::{Fill, Map, Refusal};
use gql_expr_checks::{KnownColumns, ScopeFault};
use gql_values3::{ColumnKind, OutOfMemory, Text};
use std::alloc::Global;

/// Whether it may be a node that stands already: a node without labels and a map.
fn may_refer(kind: ColumnKind, fill: &Fill) -> bool
    ensures { result ≡ may_refer kind fill.now.labels fill.now.map }
{
    match kind {
        ColumnKind::Node => fill.labels.is_none() && fill.map.is_none(),
        _ => false,
    }
}

/// Whether a column holds nodes; a group of nodes doesn't.
fn is_node(kind: ColumnKind) -> bool
    ensures { result ≡ is_node kind }
{
    matches!(kind, ColumnKind::Node)
}

/// Notes that what stands already is no node, unless another was noted before.
fn note_endpoint(
    alloc: Global,
    kinds: &mut Option<Refusal>,
    held: ColumnKind,
    name: &Text,
) -> Result<(), OutOfMemory>
    ensures { OnOk result (kinds.new ≡ option_or kinds.old (refusal_of_first Refusal.Kind (if is_node held then [] else name.now ∷ []))) }
{
    if is_node(held) {
        return Ok(());
    }
    keep(kinds, Refusal::Kind(name.try_copy(alloc)?));
    Ok(())
}

/// Checks that a variable which stands already may stand here, and notes its kind.
fn pass_standing(
    alloc: Global,
    kinds: &mut Option<Refusal>,
    held: ColumnKind,
    may_stand: bool,
    name: &Text,
) -> Result<(), ScopeFault>
    ensures names { Gives result (refusal_of_first Refusal.Variable (if may_stand then [] else name.now ∷ [])) }
    ensures kinds { OnOk result (kinds.new ≡ option_or kinds.old (refusal_of_first Refusal.Kind (if is_node held then [] else name.now ∷ []))) }
{
    if !may_stand {
        return Err(ScopeFault::Defect(Refusal::Variable(name.try_copy(alloc)?)));
    }
    note_endpoint(alloc, kinds, held, name)?;
    Ok(())
}

/// Adds a new variable.
fn push_new(
    alloc: Global,
    fresh: &mut KnownColumns,
    kind: ColumnKind,
    name: &Text,
) -> Result<(), ScopeFault>
    ensures names { Gives result None }
    ensures columns { OnOk result (fresh.new ≡ fresh.old ++ (name.now, kind) ∷ []) }
{
    fresh.push_copy(alloc, name, kind)?;
    Ok(())
}

/// Checks a variable, notes its kind, and adds it where it doesn't stand yet.
fn pass_name(
    alloc: Global,
    incoming: &KnownColumns,
    fresh: &mut KnownColumns,
    kinds: &mut Option<Refusal>,
    kind: ColumnKind,
    fill: &Fill,
    name: &Text,
) -> Result<(), ScopeFault>
    ensures names { Gives result (refusal_of_first Refusal.Variable (misplaced (incoming.now ++ fresh.old) kind fill.now (Some name.now))) }
    ensures kinds { OnOk result (kinds.new ≡ option_or kinds.old (refusal_of_first Refusal.Kind (wrong_endpoint (incoming.now ++ fresh.old) kind (Some name.now)))) }
    ensures columns { OnOk result (incoming.now ++ fresh.new ≡ with_variable (incoming.now ++ fresh.old) kind (Some name.now)) }
{
    match standing(incoming, fresh, name) {
        None => push_new(alloc, fresh, kind, name),
        Some(held) => pass_standing(alloc, kinds, held, may_refer(kind, fill), name),
    }
}

/// The same of a variable that may be there.
#[tactic(auto, using(crate::proofs::CodeLemmas::or_none))]
fn pass_variable(
    alloc: Global,
    incoming: &KnownColumns,
    fresh: &mut KnownColumns,
    kinds: &mut Option<Refusal>,
    kind: ColumnKind,
    fill: &Fill,
) -> Result<(), ScopeFault>
    ensures names { Gives result (refusal_of_first Refusal.Variable (misplaced (incoming.now ++ fresh.old) kind fill.now fill.now.variable)) }
    ensures kinds { OnOk result (kinds.new ≡ option_or kinds.old (refusal_of_first Refusal.Kind (wrong_endpoint (incoming.now ++ fresh.old) kind fill.now.variable))) }
    ensures columns { OnOk result (incoming.now ++ fresh.new ≡ with_variable (incoming.now ++ fresh.old) kind fill.now.variable) }
{
    match &fill.variable {
        None => Ok(()),
        Some(name) => pass_name(alloc, incoming, fresh, kinds, kind, fill, name),
    }
}

/// Checks the names of a map that may be there.
fn check_values(alloc: Global, scope: &KnownColumns, map: &Option<Map>) -> Result<(), ScopeFault>
    ensures { Gives result (refusal_of_first Refusal.Variable (unknown_in_map scope.now map.now)) }
{
    match map {
        None => Ok(()),
        Some(items) => check_map(alloc, scope, items.as_slice()),
    }
}

/// Checks a node or an edge, notes its kind, and adds its variable. Its map sees the incoming columns alone.
#[tactic(auto, using(gql_expr_checks::proofs::RefusalLemmas::first_of_in_two))]
pub fn pass_spot(
    alloc: Global,
    incoming: &KnownColumns,
    fresh: &mut KnownColumns,
    kinds: &mut Option<Refusal>,
    kind: ColumnKind,
    fill: &Fill,
) -> Result<(), ScopeFault>
    ensures names { Gives result (unknown_at incoming.now (incoming.now ++ fresh.old) kind fill.now) }
    ensures kinds { OnOk result (kinds.new ≡ option_or kinds.old (wrong_at (incoming.now ++ fresh.old) kind fill.now)) }
    ensures columns { OnOk result (incoming.now ++ fresh.new ≡ with_variable (incoming.now ++ fresh.old) kind fill.now.variable) }
{
    pass_variable(alloc, incoming, fresh, kinds, kind, fill)?;
    check_values(alloc, incoming, &fill.map)
}
