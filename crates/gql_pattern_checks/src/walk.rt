//! A question that is asked of each element and each condition of path patterns, in the order of the text.

ghost use Rattle.std.specs.Prelude.{◌∷◌, map, option_map, Option};
ghost use Rattle.std.specs.Option.{option_or};
ghost use Rattle.gql_ast.specs.Meaning.{tree_of};
ghost use Rattle.gql_ast.specs.Tree.{Tree};
ghost use Rattle.gql_ast.specs.declared.refusal.Refusal.{Refusal};
ghost use Rattle.gql_expr_checks.specs.Gives.{Gives};
ghost use Rattle.gql_norm.specs.NormalData.{element_data, part_data, path_data};
ghost use Rattle.gql_pattern_checks.specs.Machinery.PartWalk.{asked_of, asked_of_all, asked_of_paths, if_there};

use gql_ast::Expr;
use gql_expr_checks::ScopeFault;
use gql_norm::{ElementPattern, NormalPath, Part};
use std::alloc::Global;

/// What is asked.
pub trait Question {
    ghost use Rattle.gql_norm.specs.NormalPattern.{ElementPattern};

    /// The refusal of an element, if it is refused.
    ghost of_element: { Self → ElementPattern → Option Refusal };

    /// The refusal of a condition, if it is refused.
    ghost of_condition: { Self → Tree → Option Refusal };

    fn ask_element(&self, alloc: Global, element: &ElementPattern) -> Result<(), ScopeFault>
        ensures { Gives result (of_element self.now (element_data element.now)) };

    fn ask_condition(&self, alloc: Global, condition: &Expr) -> Result<(), ScopeFault>
        ensures { Gives result (of_condition self.now (tree_of condition.now)) };
}

/// Asks of path patterns, one after the other.
pub fn ask_paths<Q: Question>(
    question: &Q,
    alloc: Global,
    paths: &[NormalPath],
) -> Result<(), ScopeFault>
    ensures { Gives result (asked_of_paths (Q.of_element question.now) (Q.of_condition question.now) (map path_data paths.now)) }
{
    for path in paths {
        ask_part(question, alloc, &path.body)?;
    }
    Ok(())
}

/// Asks of a condition that may be there.
pub fn ask_if_there<Q: Question>(
    question: &Q,
    alloc: Global,
    condition: &Option<Expr>,
) -> Result<(), ScopeFault>
    ensures { Gives result (if_there (Q.of_condition question.now) (option_map tree_of condition.now)) }
{
    match condition {
        None => Ok(()),
        Some(condition) => question.ask_condition(alloc, condition),
    }
}

#[cycle(walk)]
#[tactic(auto, using(crate::proofs::WalkLemmas::asked_in_row, crate::proofs::WalkLemmas::asked_beside, crate::proofs::WalkLemmas::asked_told))]
fn ask_part<Q: Question>(question: &Q, alloc: Global, part: &Part) -> Result<(), ScopeFault>
    ensures { Gives result (asked_of (Q.of_element question.now) (Q.of_condition question.now) (part_data part.now)) }
{
    match part {
        Part::Node(element) => question.ask_element(alloc, element),
        Part::Edge(_, element) => question.ask_element(alloc, element),
        Part::Concat(first, second, others) => {
            ask_several(
                question,
                alloc,
                first.part(),
                second.part(),
                others.as_slice(),
            )
        }
        Part::Union(first, second, others) => {
            ask_several(
                question,
                alloc,
                first.part(),
                second.part(),
                others.as_slice(),
            )
        }
        Part::Alt(sides) => ask_parts(question, alloc, sides.as_slice()),
        Part::Quant(part, _, _) => ask_part(question, alloc, part.part()),
        Part::Opt(part) => ask_part(question, alloc, part.part()),
        Part::ModeScope(_, part, condition) => ask_scope(question, alloc, part.part(), condition),
    }
}

/// Asks of what stands in parentheses, and then of the condition that is asked as they close.
#[cycle(walk)]
fn ask_scope<Q: Question>(
    question: &Q,
    alloc: Global,
    part: &Part,
    condition: &Option<Expr>,
) -> Result<(), ScopeFault>
    ensures { Gives result (option_or (asked_of (Q.of_element question.now) (Q.of_condition question.now) (part_data part.now)) (if_there (Q.of_condition question.now) (option_map tree_of condition.now))) }
{
    ask_part(question, alloc, part)?;
    ask_if_there(question, alloc, condition)
}

#[cycle(walk)]
fn ask_several<Q: Question>(
    question: &Q,
    alloc: Global,
    first: &Part,
    second: &Part,
    others: &[Part],
) -> Result<(), ScopeFault>
    ensures { Gives result (asked_of_all (Q.of_element question.now) (Q.of_condition question.now) (part_data first.now ∷ part_data second.now ∷ map part_data others.now)) }
{
    ask_part(question, alloc, first)?;
    ask_part(question, alloc, second)?;
    ask_parts(question, alloc, others)
}

#[cycle(walk)]
fn ask_parts<Q: Question>(question: &Q, alloc: Global, parts: &[Part]) -> Result<(), ScopeFault>
    ensures { Gives result (asked_of_all (Q.of_element question.now) (Q.of_condition question.now) (map part_data parts.now)) }
{
    for part in parts {
        ask_part(question, alloc, part)?;
    }
    Ok(())
}
