//! Measures the static check of a query of many LET items.

use anyhow::{Context, Result, bail};
use gql_ast::{
    Clause, Expr, LetItem, LetItems, Operator, Query, Return, ReturnItems, SetQuantifier,
    Statement, Step, Steps, Sub,
};
use gql_scope::{ScopeFault, check};
use gql_values3::{OutOfMemory, Params, Sequence, Text};
use std::alloc::Global;
use std::rt::Clock;
use std::time::Instant;

/// Checks `LET x0 = UNKNOWN, x1 = x0 + x0, x2 = x1 + x1, .. RETURN *`, and says how long it takes.
pub fn scope(
    rt: &(impl Clock + Print + Eprint + AllocGlobal),
    alloc: Global,
    word: &str,
) -> Result<()> {
    let count = word.parse::<u32>().context("reading the number of items")?;
    let Ok(statement) = query_of(alloc, count) else {
        bail!("no memory for the query");
    };
    let params = Params::new(alloc);
    let begun = Instant::now(rt)?;
    let answer = check(alloc, &statement, &params);
    let took = begun.elapsed(rt)?.as_millis();
    match answer {
        Ok(()) => println!(rt; "{count} items pass")?,
        Err(ScopeFault::Defect(_)) => bail!("the query is refused"),
        Err(ScopeFault::OutOfMemory) => bail!("no memory for the check"),
    }
    eprintln!(rt; "{took} ms")?;
    Ok(())
}

fn name_of(alloc: Global, number: u32) -> Result<Text, OutOfMemory> {
    let mut name = Text::from_str(alloc, "x")?;
    let digits = number.to_string(alloc)?;
    name.push_str(digits.as_str())?;
    Ok(name)
}

/// `x + x`, of the item before.
fn value_of(alloc: Global, number: u32) -> Result<Expr, OutOfMemory> {
    if number == 0 {
        return Ok(Expr::Unknown);
    }
    let mut steps = Steps::new(alloc);
    steps.push(Step {
        operator: Operator::Add,
        operand: Expr::Name(name_of(alloc, number - 1)?),
    })?;
    let first = Sub::new(alloc, Expr::Name(name_of(alloc, number - 1)?))?;
    Ok(Expr::Sum(first, steps))
}

fn query_of(alloc: Global, count: u32) -> Result<Statement, OutOfMemory> {
    let mut items = LetItems::new(alloc);
    for number in 0..count {
        items.push(LetItem {
            name: name_of(alloc, number)?,
            value: value_of(alloc, number)?,
        })?;
    }
    let mut clauses = Sequence::new(alloc);
    clauses.push(Clause::Let(items))?;
    clauses.push(Clause::Return(Return {
        quantifier: SetQuantifier::All,
        items: ReturnItems::All,
        grouping: None,
        order: None,
        skip: None,
        limit: None,
    }))?;
    Ok(Statement::Query(Query { clauses }))
}
