//! Functions of one value.

ghost use Rattle.std.specs.Prelude.{◌≡◌, ◌∷◌, ◌++◌, map, length, IfOk, OnOk};
ghost use Rattle.std.specs.List.{flat_map};
ghost use Rattle.std.specs.Str.{chars};
ghost use Rattle.gql_values3.specs.Datum.{node, integer};
ghost use Rattle.gql_values3.specs.Meaning.{datum_of};
ghost use Rattle.gql_ast.specs.Operators.{applied, step_elements};
ghost use Rattle.gql_ast.specs.declared.words.Function.TheVariants.{Abs as AbsWord};
ghost use Rattle.gql_eval.specs.Gives.{Gives, GivesExactly};

use crate::arithmetic::{count_value, subtract};
use crate::error::EvalError;
use gql_ast::{DataFault, Function};
use gql_values3::{EdgeId, List, NodeId, OutOfMemory, PathValue, Value};
use std::alloc::Global;

/// A function of one value.
#[tactic(auto, using(crate::proofs::ItemLemmas::items_again))]
pub fn apply(alloc: Global, function: Function, value: &Value) -> Result<Value, EvalError>
    ensures { Gives datum_of result (applied function (datum_of value.now)) }
{
    match (function, value) {
        (_, Value::Null) => Ok(Value::Null),
        (Function::Abs, Value::Int(number)) => Ok(absolute(*number)?),
        (Function::CharLength, Value::Text(text)) => Ok(count_value(char_count(text.as_str()))?),
        (Function::Cardinality, Value::List(items)) => Ok(count_value(items.len())?),
        (Function::PathLength, Value::Path(path)) => Ok(count_value(path.steps().len())?),
        (Function::Elements, Value::Path(path)) => Ok(Value::List(elements(alloc, path)?)),
        _ => Err(EvalError::Fault(DataFault::WrongKind)),
    }
}

/// The number of characters.
fn char_count(text: &str) -> usize
    ensures { result ≡ length (chars text.now) }
{
    text.chars().count()
}

fn absolute(number: i64) -> Result<Value, DataFault>
    ensures { GivesExactly datum_of result (applied AbsWord (integer number)) }
{
    if number < 0 {
        subtract(0, number)
    } else {
        Ok(Value::Int(number))
    }
}

/// The elements of a path in order, nodes and edges in turn.
fn elements(alloc: Global, path: &PathValue) -> Result<List, OutOfMemory>
    ensures { IfOk result (λ items. items ≡ node path.now.start ∷ flat_map step_elements path.now.steps) }
{
    let mut items = List::new(alloc);
    items.push(Value::Node(path.start()))?;
    add_steps(&mut items, path.steps())?;
    Ok(items)
}

fn add_steps(items: &mut List, steps: &[(EdgeId, NodeId)]) -> Result<(), OutOfMemory>
    ensures { OnOk result (items.new ≡ items.old ++ flat_map step_elements (map (λ s. (s.0.0, s.1.0)) steps.now)) }
{
    for step in steps {
        items.push(Value::Edge(step.0))?;
        items.push(Value::Node(step.1))?;
    }
    Ok(())
}
