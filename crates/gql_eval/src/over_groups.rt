//! An aggregate over a group, for whose items the steps of its argument are done in turn.

ghost use Rattle.std.specs.Prelude.{◌≡◌, map};
ghost use Rattle.gql_values3.specs.Meaning.{datum_of};
ghost use Rattle.gql_ast.specs.Meaning.{tree_of};
ghost use Rattle.gql_ast.specs.Tree.{aggregate as aggregate_tree};
ghost use Rattle.gql_ast.specs.Faults.{each};
ghost use Rattle.gql_ast.specs.Scope.{with_item};
ghost use Rattle.gql_ast.specs.Evaluation.{value_of};
ghost use Rattle.gql_eval.specs.Gives.{Gives};
ghost use Rattle.gql_eval.specs.Machinery.InstructionMeaning.{program_of};
ghost use Rattle.gql_eval.specs.Machinery.Steps.{pushed};
ghost use Rattle.gql_eval.specs.Machinery.Compiled.{compiled};
ghost use Rattle.gql_eval.specs.Machinery.ScopeMeaning.{scope_of};

use crate::aggregates::aggregate;
use crate::cow::CowValue;
use crate::error::EvalError;
use crate::groups::items_in;
use crate::held_groups::held_group;
use crate::instruction::Instruction;
use crate::running::value_of_program;
use crate::scope::{Item, Scope, with_front};
use crate::stack::Stack;
use crate::steps::put;
use gql_ast::{Aggregate, Expr, SetQuantifier};
use gql_values3::{List, Params, Text, Value, View};
use std::alloc::Global;

/// Puts the value of an aggregate over a group on top.
#[inline(never)]
#[cycle(running)]
pub fn put_over_group<'r, V: View>(
    alloc: Global,
    view: &'r V,
    scope: &Scope<'r>,
    params: &'r Params,
    word: Aggregate,
    quantifier: SetQuantifier,
    part: &'r Expr,
    steps: &'r [Instruction<'r>],
    stack: &mut Stack<'r>,
) -> Result<(), EvalError>
    requires { program_of steps.now ≡ compiled scope.now.columns.now scope.now.names.now params.now (tree_of part.now) }
    ensures { Gives (λ _. stack.new) result (pushed stack.old (value_of (V.graph view.now) params.now (scope_of scope.now) (aggregate_tree word quantifier (tree_of part.now)))) }
{
    let value = over_group(alloc, view, scope, params, word, quantifier, part, steps)?;
    put(stack, CowValue::Owned(value))
}

/// An aggregate over the group that its argument names first. There is none over rows within a row.
#[inline(never)]
#[cycle(running)]
fn over_group<'r, V: View>(
    alloc: Global,
    view: &'r V,
    scope: &Scope<'r>,
    params: &'r Params,
    word: Aggregate,
    quantifier: SetQuantifier,
    part: &'r Expr,
    steps: &'r [Instruction<'r>],
) -> Result<Value, EvalError>
    requires { program_of steps.now ≡ compiled scope.now.columns.now scope.now.names.now params.now (tree_of part.now) }
    ensures { Gives datum_of result (value_of (V.graph view.now) params.now (scope_of scope.now) (aggregate_tree word quantifier (tree_of part.now))) }
{
    let Some(group) = held_group(alloc, scope, steps)? else {
        return Ok(Value::Null);
    };
    let items = items_in(group.value.value());
    let values = over_items(alloc, view, scope, params, group.name, items, part, steps)?;
    aggregate(alloc, word, quantifier, values.as_slice())
}

/// The values of an expression with the name standing for each of the items in turn.
#[inline(never)]
#[cycle(running)]
fn over_items<'r, V: View>(
    alloc: Global,
    view: &'r V,
    scope: &Scope<'r>,
    params: &'r Params,
    name: &Text,
    items: &[Value],
    part: &'r Expr,
    steps: &'r [Instruction<'r>],
) -> Result<List, EvalError>
    requires { program_of steps.now ≡ compiled scope.now.columns.now scope.now.names.now params.now (tree_of part.now) }
    ensures { Gives (λ l. l) result (each (λ item. value_of (V.graph view.now) params.now (with_item (scope_of scope.now) name.now item) (tree_of part.now)) (map datum_of items.now)) }
{
    let mut values = List::new(alloc);
    for i in 0..items.len() {
        let item = Item {
            name: name.as_str(),
            is_group: false,
            value: &items[i],
        };
        let front = with_front(alloc, item, scope.front)?;
        let inner = scope.under(front.as_slice());
        let value = value_of_program(alloc, view, &inner, params, part, steps)?;
        values.push(value.into_value(alloc)?)?;
    }
    Ok(values)
}
