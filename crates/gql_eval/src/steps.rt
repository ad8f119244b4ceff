//! What the single steps of a program do to the stack.

ghost use Rattle.std.specs.Prelude.{◌≡◌, ◌∷◌, Ok};
ghost use Rattle.gql_values3.specs.Meaning.{datum_of};
ghost use Rattle.gql_values3.specs.Truth.{both};
ghost use Rattle.gql_ast.specs.Meaning.{tree_of};
ghost use Rattle.gql_ast.specs.ElementTests.{property_value};
ghost use Rattle.gql_ast.specs.Operators.{operated};
ghost use Rattle.gql_eval.specs.CowValue.{cow_datum};
ghost use Rattle.gql_eval.specs.Gives.{Gives};
ghost use Rattle.gql_eval.specs.Machinery.JoinedTruth.{joined_truth};
ghost use Rattle.gql_eval.specs.Machinery.Operations.{of_operand, of_operands};
ghost use Rattle.gql_eval.specs.Machinery.AtPlaces.{held_at};
ghost use Rattle.gql_eval.specs.Machinery.Steps.{join_by, list_ended, on_one, on_two, pushed, read_truth, with_item_behind, without_null};

use crate::cow::CowValue;
use crate::elements::property;
use crate::error::EvalError;
use crate::making::list_value;
use crate::operations::{binary_value, operation_value};
use crate::operators::operate;
use crate::places::Places;
use crate::scope::{Scope, held_at};
use crate::stack::{Stack, StackValue};
use crate::truths::{join_truths, truth_of_value, truth_value};
use gql_ast::{DataFault, Expr, Operator};
use gql_values3::{Text, Value, View, and3};
use std::alloc::Global;

/// Puts a value on top.
pub fn put<'r>(stack: &mut Stack<'r>, value: CowValue<'r>) -> Result<(), EvalError>
    ensures { Gives (λ _. stack.new) result (Ok (cow_datum value.entry ∷ stack.old)) }
{
    Ok(stack.push(StackValue::any(value))?)
}

/// Puts what a name stands for.
pub fn put_name<'r>(
    alloc: Global,
    scope: &Scope<'r>,
    places: Places,
    name: &Text,
    stack: &mut Stack<'r>,
) -> Result<(), EvalError>
    ensures { Gives (λ _. stack.new) result (Ok (held_at scope.now places name.now ∷ stack.old)) }
{
    let value = held_at(alloc, scope, places, name)?;
    put(stack, value)
}

/// Puts a property of what a name stands for.
pub fn put_property<'r, V: View>(
    alloc: Global,
    view: &'r V,
    scope: &Scope<'r>,
    places: Places,
    name: &Text,
    key: &Text,
    stack: &mut Stack<'r>,
) -> Result<(), EvalError>
    ensures { Gives (λ _. stack.new) result (pushed stack.old (property_value (V.graph view.now) (held_at scope.now places name.now) key.now)) }
{
    let element = held_at(alloc, scope, places, name)?;
    let value = property(view, element.value(), key)?;
    put(stack, value)
}

/// Puts what an expression makes of the top.
#[inline(never)]
pub fn on_top<'r, V: View>(
    alloc: Global,
    view: &V,
    expr: &Expr,
    stack: &mut Stack<'r>,
) -> Result<(), EvalError>
    ensures { Gives (λ _. stack.new) result (on_one stack.old (of_operand (V.graph view.now) (tree_of expr.now))) }
{
    let Some(operand) = stack.pop() else {
        return Err(EvalError::Fault(DataFault::WrongKind));
    };
    let value = operation_value(alloc, view, expr, operand.value())?;
    put(stack, CowValue::Owned(value))
}

/// Puts what an expression makes of the two on top.
pub fn on_both<'r, V: View>(view: &V, expr: &Expr, stack: &mut Stack<'r>) -> Result<(), EvalError>
    ensures { Gives (λ _. stack.new) result (on_two stack.old (of_operands (V.graph view.now) (tree_of expr.now))) }
{
    let Some(b) = stack.pop() else {
        return Err(EvalError::Fault(DataFault::WrongKind));
    };
    let Some(a) = stack.pop() else {
        return Err(EvalError::Fault(DataFault::WrongKind));
    };
    let value = binary_value(view, expr, a.value(), b.value())?;
    put(stack, CowValue::Owned(value))
}

/// Joins the two on top by an operator.
pub fn join_side<'r>(
    alloc: Global,
    operator: Operator,
    stack: &mut Stack<'r>,
) -> Result<(), EvalError>
    ensures { Gives (λ _. stack.new) result (on_two stack.old (operated operator)) }
{
    let Some(b) = stack.pop() else {
        return Err(EvalError::Fault(DataFault::WrongKind));
    };
    let Some(a) = stack.pop() else {
        return Err(EvalError::Fault(DataFault::WrongKind));
    };
    let (a, is_within) = a.into_parts();
    let value = operate(alloc, operator, a, is_within, b.value())?;
    Ok(stack.push(StackValue::within(value, operator == Operator::Concatenate))?)
}

/// Reads the top as a truth.
pub fn read_top<'r>(stack: &mut Stack<'r>) -> Result<(), EvalError>
    ensures { Gives (λ _. stack.new) result (on_one stack.old read_truth) }
{
    let Some(value) = stack.pop() else {
        return Err(EvalError::Fault(DataFault::WrongKind));
    };
    let truth = truth_of_value(value.value())?;
    put(stack, CowValue::Owned(truth_value(truth)))
}

/// Joins the two on top by AND.
pub fn join_all<'r>(stack: &mut Stack<'r>) -> Result<(), EvalError>
    ensures { Gives (λ _. stack.new) result (on_two stack.old (join_by both)) }
{
    let Some(b) = stack.pop() else {
        return Err(EvalError::Fault(DataFault::WrongKind));
    };
    let Some(a) = stack.pop() else {
        return Err(EvalError::Fault(DataFault::WrongKind));
    };
    let truth = truth_of_value(a.value())?;
    let side = truth_of_value(b.value())?;
    put(stack, CowValue::Owned(truth_value(and3(truth, side))))
}

/// Joins the two on top by OR or XOR.
pub fn join_any<'r>(operator: Operator, stack: &mut Stack<'r>) -> Result<(), EvalError>
    ensures { Gives (λ _. stack.new) result (on_two stack.old (join_by (joined_truth operator))) }
{
    let Some(b) = stack.pop() else {
        return Err(EvalError::Fault(DataFault::WrongKind));
    };
    let Some(a) = stack.pop() else {
        return Err(EvalError::Fault(DataFault::WrongKind));
    };
    let truth = truth_of_value(a.value())?;
    let side = truth_of_value(b.value())?;
    put(
        stack,
        CowValue::Owned(truth_value(join_truths(operator, truth, side))),
    )
}

/// Puts the top behind the items of the list below it.
pub fn add_item<'r>(alloc: Global, stack: &mut Stack<'r>) -> Result<(), EvalError>
    ensures { Gives (λ _. stack.new) result (on_two stack.old with_item_behind) }
{
    let Some(item) = stack.pop() else {
        return Err(EvalError::Fault(DataFault::WrongKind));
    };
    let Some(list) = stack.pop() else {
        return Err(EvalError::Fault(DataFault::WrongKind));
    };
    let (item, _) = item.into_parts();
    let (list, _) = list.into_parts();
    let value = with_item_behind(alloc, list, item)?;
    put(stack, CowValue::Owned(value))
}

/// The list with an item more.
fn with_item_behind(alloc: Global, list: CowValue, item: CowValue) -> Result<Value, EvalError>
    ensures { Gives datum_of result (with_item_behind (cow_datum list.entry) (cow_datum item.entry)) }
{
    let list = list.into_value(alloc)?;
    let item = item.into_value(alloc)?;
    with_value_behind(list, item)
}

fn with_value_behind(list: Value, item: Value) -> Result<Value, EvalError>
    ensures { Gives datum_of result (with_item_behind (datum_of list) (datum_of item)) }
{
    match list {
        Value::List(mut items) => {
            items.push(item)?;
            Ok(Value::List(items))
        }
        _ => Err(EvalError::Fault(DataFault::WrongKind)),
    }
}

/// Makes a value of the list on top.
pub fn end_list<'r>(alloc: Global, stack: &mut Stack<'r>) -> Result<(), EvalError>
    ensures { Gives (λ _. stack.new) result (on_one stack.old list_ended) }
{
    let Some(list) = stack.pop() else {
        return Err(EvalError::Fault(DataFault::WrongKind));
    };
    let (list, _) = list.into_parts();
    let value = list_ended(list.into_value(alloc)?)?;
    put(stack, CowValue::Owned(value))
}

/// The list as a value that is made.
fn list_ended(list: Value) -> Result<Value, EvalError>
    ensures { Gives datum_of result (list_ended (datum_of list)) }
{
    match list {
        Value::List(items) => Ok(list_value(items)?),
        _ => Err(EvalError::Fault(DataFault::WrongKind)),
    }
}

/// Takes the top away where it is NULL.
pub fn drop_null(stack: &mut Stack)
    ensures { stack.new ≡ without_null stack.old }
{
    if stack.has_null_on_top() {
        let _ = stack.pop();
    }
}
