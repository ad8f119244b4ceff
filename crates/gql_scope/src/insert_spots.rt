//! One walk over the nodes and edges of an INSERT in the order of the text, each under the variables before it: it stops at the
//! first fault of a name (E08), notes the first of a kind (E09), and leaves the new variables, of which the columns behind are made.

ghost use Rattle.std.specs.Prelude.{◌≡◌, ◌++◌, OnOk, IsFalse};
ghost use Rattle.std.specs.List.{flat_map};
ghost use Rattle.std.specs.Option.{option_or};
ghost use Rattle.gql_ast.specs.Endpoints.{wrong_in_spots};
ghost use Rattle.gql_ast.specs.InsertColumns.{step_spots, path_spots, insert_spots, spot_columns};
ghost use Rattle.gql_expr_checks.specs.Gives.{Gives};
ghost use Rattle.gql_expr_checks.specs.Refusals.{refusal_of_first};
ghost use Rattle.gql_scope.specs.UnknownNames.{unknown_in_spots};
ghost use Rattle.gql_scope.specs.Machinery.Questions.{first_in_spots, unknown_at, wrong_at};

use crate::outputs::push_columns;
use crate::spot_names::pass_spot;
use gql_ast::{InsertPath, InsertStep, Refusal};
use gql_expr_checks::{KnownColumns, ScopeFault};
use gql_values3::{ColumnKind, OutOfMemory};
use std::alloc::Global;

/// Passes an edge and then the node to which it leads.
#[tactic(auto, using(crate::proofs::CodeLemmas::or_none, crate::proofs::CodeLemmas::or_assoc))]
fn pass_step(
    alloc: Global,
    incoming: &KnownColumns,
    fresh: &mut KnownColumns,
    kinds: &mut Option<Refusal>,
    step: &InsertStep,
) -> Result<(), ScopeFault>
    ensures names { Gives result (first_in_spots (unknown_at incoming.now) (incoming.now ++ fresh.old) (step_spots step.now)) }
    ensures kinds { OnOk result (kinds.new ≡ option_or kinds.old (first_in_spots wrong_at (incoming.now ++ fresh.old) (step_spots step.now))) }
    ensures columns { OnOk result (incoming.now ++ fresh.new ≡ spot_columns (incoming.now ++ fresh.old) (step_spots step.now)) }
{
    let edge = &step.edge;
    pass_spot(alloc, incoming, fresh, kinds, ColumnKind::Edge, edge)?;
    let node = &step.node;
    pass_spot(alloc, incoming, fresh, kinds, ColumnKind::Node, node)
}

/// Passes a path's steps in order.
fn pass_steps(
    alloc: Global,
    incoming: &KnownColumns,
    fresh: &mut KnownColumns,
    kinds: &mut Option<Refusal>,
    steps: &[InsertStep],
) -> Result<(), ScopeFault>
    ensures names { Gives result (first_in_spots (unknown_at incoming.now) (incoming.now ++ fresh.old) (flat_map step_spots steps.now)) }
    ensures kinds { OnOk result (kinds.new ≡ option_or kinds.old (first_in_spots wrong_at (incoming.now ++ fresh.old) (flat_map step_spots steps.now))) }
    ensures columns { OnOk result (incoming.now ++ fresh.new ≡ spot_columns (incoming.now ++ fresh.old) (flat_map step_spots steps.now)) }
{
    for step in steps {
        pass_step(alloc, incoming, fresh, kinds, step)?;
    }
    Ok(())
}

/// Passes a path: its first node, and then its steps.
#[tactic(auto, using(crate::proofs::CodeLemmas::or_assoc))]
fn pass_path(
    alloc: Global,
    incoming: &KnownColumns,
    fresh: &mut KnownColumns,
    kinds: &mut Option<Refusal>,
    path: &InsertPath,
) -> Result<(), ScopeFault>
    ensures names { Gives result (first_in_spots (unknown_at incoming.now) (incoming.now ++ fresh.old) (path_spots path.now)) }
    ensures kinds { OnOk result (kinds.new ≡ option_or kinds.old (first_in_spots wrong_at (incoming.now ++ fresh.old) (path_spots path.now))) }
    ensures columns { OnOk result (incoming.now ++ fresh.new ≡ spot_columns (incoming.now ++ fresh.old) (path_spots path.now)) }
{
    let start = &path.start;
    pass_spot(alloc, incoming, fresh, kinds, ColumnKind::Node, start)?;
    pass_steps(alloc, incoming, fresh, kinds, path.steps.as_slice())
}

/// Passes the paths in order.
fn pass_paths(
    alloc: Global,
    incoming: &KnownColumns,
    fresh: &mut KnownColumns,
    kinds: &mut Option<Refusal>,
    paths: &[InsertPath],
) -> Result<(), ScopeFault>
    ensures names { Gives result (first_in_spots (unknown_at incoming.now) (incoming.now ++ fresh.old) (insert_spots paths.now)) }
    ensures kinds { OnOk result (kinds.new ≡ option_or kinds.old (first_in_spots wrong_at (incoming.now ++ fresh.old) (insert_spots paths.now))) }
    ensures columns { OnOk result (incoming.now ++ fresh.new ≡ spot_columns (incoming.now ++ fresh.old) (insert_spots paths.now)) }
{
    for path in paths {
        pass_path(alloc, incoming, fresh, kinds, path)?;
    }
    Ok(())
}

/// Passes an INSERT, and adds its new variables to the columns, unless it is the last clause.
#[tactic(auto, using(crate::proofs::SpotLemmas::nothing_new, crate::proofs::SpotLemmas::unknown_is_first, crate::proofs::SpotLemmas::wrong_is_first))]
pub fn pass_insert(
    alloc: Global,
    scope: &mut KnownColumns,
    kinds: &mut Option<Refusal>,
    paths: &[InsertPath],
    is_last: bool,
) -> Result<(), ScopeFault>
    ensures names { Gives result (refusal_of_first Refusal.Variable (unknown_in_spots scope.old scope.old (insert_spots paths.now))) }
    ensures kinds { OnOk result (kinds.new ≡ option_or kinds.old (refusal_of_first Refusal.Kind (wrong_in_spots scope.old (insert_spots paths.now)))) }
    ensures columns { OnOk result (IsFalse is_last → scope.new ≡ spot_columns scope.old (insert_spots paths.now)) }
{
    let mut fresh = KnownColumns::new(alloc);
    pass_paths(alloc, scope, &mut fresh, kinds, paths)?;
    append_unless_last(alloc, scope, &fresh, is_last)?;
    Ok(())
}

/// Adds the new variables to the columns, unless nobody asks for them.
fn append_unless_last(
    alloc: Global,
    scope: &mut KnownColumns,
    fresh: &KnownColumns,
    is_last: bool,
) -> Result<(), OutOfMemory>
    ensures { OnOk result (IsFalse is_last → scope.new ≡ scope.old ++ fresh.now) }
{
    if is_last {
        return Ok(());
    }
    push_columns(alloc, scope, fresh.columns())
}
