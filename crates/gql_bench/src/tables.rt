//! Measures each clause over tables.

use anyhow::{Context, Result, bail};
use gql_ast::{Clause, Query, Statement};
use gql_eval::EvalError;
use gql_graph::Graph;
use gql_lexer::lexemes;
use gql_statements::parse;
use gql_table::apply;
use gql_values3::{ColumnKind, Columns, OutOfMemory, Params, Row, Rows, Text, Value};
use std::alloc::Global;
use std::rt::Clock;
use std::time::Instant;

/// What is measured: its name, and a query whose first clause is applied to a table of the columns a and b.
const MEASURED: [(&str, &str); 8] = [
    ("LET", "LET c = a + 1 RETURN *"),
    ("FILTER", "FILTER a > 5 RETURN *"),
    ("FOR", "FOR i IN [1, 2] RETURN *"),
    ("ORDER BY", "ORDER BY b DESC RETURN *"),
    ("OFFSET LIMIT", "OFFSET 10 LIMIT 100 RETURN *"),
    ("RETURN", "RETURN a, a + b AS c"),
    ("DISTINCT", "RETURN DISTINCT b"),
    ("grouping", "RETURN b, COUNT(*) AS n, SUM(a) AS s"),
];

/// Applies each clause to so many rows, and says how many rows it leaves and how long it takes.
pub fn tables(
    rt: &(impl Clock + Print + Eprint + AllocGlobal),
    alloc: Global,
    word: &str,
) -> Result<()> {
    let count = word.parse::<u32>().context("reading the number of rows")?;
    for (name, text) in &MEASURED {
        measure(rt, alloc, count, name, text)?;
    }
    Ok(())
}

fn measure(
    rt: &(impl Clock + Print + Eprint + AllocGlobal),
    alloc: Global,
    count: u32,
    name: &str,
    text: &str,
) -> Result<()> {
    let query = query_of(alloc, text)?;
    match query.clauses.as_slice().first() {
        Some(clause) => measure_clause(rt, alloc, count, name, clause),
        None => bail!("a query without clauses"),
    }
}

fn measure_clause(
    rt: &(impl Clock + Print + Eprint + AllocGlobal),
    alloc: Global,
    count: u32,
    name: &str,
    clause: &Clause,
) -> Result<()> {
    let Ok((columns, rows)) = table_of(alloc, count) else {
        bail!("no memory for the rows");
    };
    let begun = Instant::now(rt)?;
    let Ok(left) = rows_behind(alloc, &columns, rows, clause) else {
        bail!("the clause has no table");
    };
    let took = begun.elapsed(rt)?.as_micros();
    println!(rt; "{name}: {count} rows, {left} behind it")?;
    eprintln!(rt; "{took} microseconds")?;
    Ok(())
}

/// How many rows the clause leaves.
fn rows_behind(
    alloc: Global,
    columns: &Columns,
    rows: Rows,
    clause: &Clause,
) -> Result<usize, EvalError> {
    let graph = Graph::new(alloc);
    let params = Params::new(alloc);
    let (_, left) = applied(alloc, &graph, columns, rows, &params, clause)?;
    Ok(left.len())
}

/// The columns and rows behind the clause, over a graph in memory.
fn applied(
    alloc: Global,
    graph: &Graph,
    columns: &Columns,
    rows: Rows,
    params: &Params,
    clause: &Clause,
) -> Result<(Columns, Rows), EvalError> {
    apply(alloc, graph, columns, rows, params, clause)
}

fn query_of(alloc: Global, text: &str) -> Result<Query> {
    if text.len() > 1000 {
        bail!("a long text");
    }
    let Ok(read) = lexemes(alloc, text.as_bytes()) else {
        bail!("a bad text");
    };
    if read.len() > 1000 {
        bail!("a long text");
    }
    match parse(alloc, read.as_slice()) {
        Ok(Statement::Query(query)) => Ok(query),
        _ => bail!("no query"),
    }
}

fn table_of(alloc: Global, count: u32) -> Result<(Columns, Rows), OutOfMemory> {
    let mut columns = Columns::new(alloc);
    columns.push((Text::from_str(alloc, "a")?, ColumnKind::Plain))?;
    columns.push((Text::from_str(alloc, "b")?, ColumnKind::Plain))?;
    let mut rows = Rows::new(alloc);
    for number in 0..count {
        rows.push(row_of(alloc, number, count)?)?;
    }
    Ok((columns, rows))
}

/// In a the row's number; in b a number that ten rows share, these being far apart.
fn row_of(alloc: Global, number: u32, count: u32) -> Result<Row, OutOfMemory> {
    let groups = (count / 10).max(1);
    let group = number.wrapping_mul(7919) % groups;
    let mut row = Row::new(alloc);
    row.push(Value::Int(i64::from(number)))?;
    row.push(Value::Int(i64::from(group)))?;
    Ok(row)
}
