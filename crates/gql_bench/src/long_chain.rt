//! A chain is a loop, however long it is: a recursion over its sides would want a stack frame for each.

use anyhow::{Result, bail};
use gql_ast::{Expr, Operator, Step, Steps, Sub};
use gql_eval::{EvalError, value};
use gql_graph::Graph;
use gql_values3::{Columns, OutOfMemory, Params, Row, Text, Value};
use std::alloc::Global;

/// How many sides the chain has behind the first.
const BEHIND: u32 = 100_000;

/// Evaluates a chain of 100,001 sides, and says what it comes to.
pub fn long_chain(rt: &(impl Print + AllocGlobal), alloc: Global) -> Result<()> {
    let Ok(chain) = sum_of_ones(alloc, BEHIND) else {
        bail!("no memory for the chain");
    };
    match value_of(alloc, &chain) {
        Ok(Value::Int(sum)) => println!(rt; "a chain of ones: {sum}")?,
        Ok(_) => bail!("no number"),
        Err(_) => bail!("no value"),
    }
    Ok(())
}

/// `1 + 1 + ..`, so many times behind the first.
fn sum_of_ones(alloc: Global, times: u32) -> Result<Expr, OutOfMemory> {
    let mut steps = Steps::new(alloc);
    for _ in 0..times {
        steps.push(Step {
            operator: Operator::Add,
            operand: one(alloc)?,
        })?;
    }
    Ok(Expr::Sum(Sub::new(alloc, one(alloc)?)?, steps))
}

fn one(alloc: Global) -> Result<Expr, OutOfMemory> {
    Ok(Expr::Number(Text::from_str(alloc, "1")?))
}

/// The value of an expression without names.
fn value_of(alloc: Global, expr: &Expr) -> Result<Value, EvalError> {
    let graph = Graph::new(alloc);
    let columns = Columns::new(alloc);
    let row = Row::new(alloc);
    let params = Params::new(alloc);
    value(alloc, &graph, &columns, &row, &params, expr)
}
