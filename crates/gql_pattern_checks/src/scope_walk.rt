//! The walk over path patterns that asks of each expression under what it may name.

ghost use Rattle.std.specs.Prelude.{◌≡◌, ◌∷◌, false, map, option_map, OnOk};
ghost use Rattle.std.specs.Option.{option_or};
ghost use Rattle.gql_ast.specs.Meaning.{tree_of};
ghost use Rattle.gql_expr_checks.specs.Gives.{Gives};
ghost use Rattle.gql_norm.specs.NormalData.{element_data, part_data};
ghost use Rattle.gql_norm.specs.PredicateSpot.{trees_in};
ghost use Rattle.gql_pattern_checks.specs.Machinery.ScopeWalk.{refused_beside, refused_element, refused_in, refused_in_row, refused_of};
ghost use Rattle.gql_pattern_checks.specs.Machinery.Scopes.{with_part, with_parts};

use crate::scope::Names;
use crate::scoped::{Walk, ask_condition, ask_predicates};
use crate::variables::add_part;
use gql_ast::Expr;
use gql_expr_checks::ScopeFault;
use gql_norm::{ElementPattern, Part};

/// Asks of an element's predicates, which see its own variable. It is added just where there are some.
#[tactic(auto, using(crate::proofs::MarkLemmas::variable_cut))]
fn check_element(walk: &Walk, names: &mut Names, element: &ElementPattern) -> Result<(), ScopeFault>
    ensures faults { Gives result (refused_element walk.now.question walk.now.columns.now names.old (element_data element.now)) }
    ensures kept { OnOk result (names.new ≡ names.old) }
{
    if element.predicates.is_empty() {
        return Ok(());
    }
    let marks = names.marks();
    names.add_variable(walk.alloc, false, &element.variable)?;
    ask_predicates(walk, names, element.predicates.as_slice())?;
    names.cut(&marks);
    Ok(())
}

/// Asks of a part, and leaves the names as they were.
#[cycle(scope_walk)]
#[tactic(auto, using(crate::proofs::RowLemmas::refused_row, crate::proofs::RowLemmas::refused_union, crate::proofs::RowLemmas::refused_told))]
pub fn check_part(walk: &Walk, names: &mut Names, part: &Part) -> Result<(), ScopeFault>
    ensures faults { Gives result (refused_in walk.now.question walk.now.columns.now names.old (part_data part.now)) }
    ensures kept { OnOk result (names.new ≡ names.old) }
{
    match part {
        Part::Node(element) => check_element(walk, names, element),
        Part::Edge(_, element) => check_element(walk, names, element),
        Part::Concat(first, second, others) => {
            check_row(walk, names, first.part(), second.part(), others.as_slice())
        }
        Part::Union(first, second, others) => {
            check_union(walk, names, first.part(), second.part(), others.as_slice())
        }
        Part::Alt(sides) => check_sides(walk, names, sides.as_slice()),
        Part::Quant(part, _, _) => check_part(walk, names, part.part()),
        Part::Opt(part) => check_part(walk, names, part.part()),
        Part::ModeScope(_, part, condition) => check_parens(walk, names, part.part(), condition),
    }
}

/// Asks of what stands in parentheses, and then of their condition, which sees its variables.
#[cycle(scope_walk)]
#[tactic(auto, using(crate::proofs::MarkLemmas::part_cut))]
fn check_parens(
    walk: &Walk,
    names: &mut Names,
    part: &Part,
    condition: &Option<Expr>,
) -> Result<(), ScopeFault>
    ensures faults { Gives result (option_or (refused_in walk.now.question walk.now.columns.now names.old (part_data part.now)) (refused_of walk.now.question walk.now.columns.now (with_part false names.old (part_data part.now)) (trees_in (option_map tree_of condition.now)))) }
    ensures kept { OnOk result (names.new ≡ names.old) }
{
    let marks = names.marks();
    check_step(walk, names, part)?;
    ask_condition(walk, names, condition)?;
    names.cut(&marks);
    Ok(())
}

/// Asks of parts in a row, each of which sees the variables of those before it.
#[cycle(scope_walk)]
fn check_row(
    walk: &Walk,
    names: &mut Names,
    first: &Part,
    second: &Part,
    others: &[Part],
) -> Result<(), ScopeFault>
    ensures faults { Gives result (refused_in_row walk.now.question walk.now.columns.now names.old (part_data first.now ∷ part_data second.now ∷ map part_data others.now)) }
    ensures kept { OnOk result (names.new ≡ names.old) }
{
    let marks = names.marks();
    check_step(walk, names, first)?;
    check_step(walk, names, second)?;
    check_steps(walk, names, others)?;
    names.cut(&marks);
    Ok(())
}

/// Asks of a part, and adds its variables.
#[cycle(scope_walk)]
fn check_step(walk: &Walk, names: &mut Names, part: &Part) -> Result<(), ScopeFault>
    ensures faults { Gives result (refused_in walk.now.question walk.now.columns.now names.old (part_data part.now)) }
    ensures added { OnOk result (names.new ≡ with_part false names.old (part_data part.now)) }
{
    check_part(walk, names, part)?;
    add_part(walk.alloc, false, part, names)?;
    Ok(())
}

#[cycle(scope_walk)]
fn check_steps(walk: &Walk, names: &mut Names, parts: &[Part]) -> Result<(), ScopeFault>
    ensures faults { Gives result (refused_in_row walk.now.question walk.now.columns.now names.old (map part_data parts.now)) }
    ensures added { OnOk result (names.new ≡ with_parts false names.old (map part_data parts.now)) }
{
    for part in parts {
        check_step(walk, names, part)?;
    }
    Ok(())
}

/// Asks of the sides of a union, none of which sees another.
#[cycle(scope_walk)]
fn check_union(
    walk: &Walk,
    names: &mut Names,
    first: &Part,
    second: &Part,
    others: &[Part],
) -> Result<(), ScopeFault>
    ensures faults { Gives result (refused_beside walk.now.question walk.now.columns.now names.old (part_data first.now ∷ part_data second.now ∷ map part_data others.now)) }
    ensures kept { OnOk result (names.new ≡ names.old) }
{
    check_part(walk, names, first)?;
    check_part(walk, names, second)?;
    check_sides(walk, names, others)
}

#[cycle(scope_walk)]
fn check_sides(walk: &Walk, names: &mut Names, parts: &[Part]) -> Result<(), ScopeFault>
    ensures faults { Gives result (refused_beside walk.now.question walk.now.columns.now names.old (map part_data parts.now)) }
    ensures kept { OnOk result (names.new ≡ names.old) }
{
    for part in parts {
        check_part(walk, names, part)?;
    }
    Ok(())
}
