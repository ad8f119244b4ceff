//! Evaluates `x.a + 1 > $k AND NOT y.b = 'text'` over rows whose columns x and y hold nodes.

use anyhow::{Result, bail};
use gql_ast::{Expr, Operator, Step, Steps, Sub};
use gql_eval::{EvalError, Prepared};
use gql_graph::{Graph, NodeRecords};
use gql_values3::{
    ColumnKind, Columns, Comparison, List, Names, NodeId, NodeRecord, OutOfMemory, Params,
    Properties, Row, Rows, Sequence, Text, Value,
};
use std::alloc::Global;
use std::rt::Clock;
use std::time::Instant;

/// How many rows there are.
const ROWS: u32 = 1_000_000;

/// What is evaluated, and over what.
#[derive(Drop)]
struct Setting {
    nodes: NodeRecords,
    columns: Columns,
    rows: Rows,
    params: Params,
    condition: Expr,
}

/// Evaluates the condition over each row, and says over how many rows it holds.
pub fn evaluate(
    rt: &(impl Clock + Print + Eprint + AllocGlobal),
    alloc: Global,
    word: &str,
) -> Result<()> {
    let Ok(nodes) = word.parse::<u32>() else {
        bail!("a number of nodes is wanted");
    };
    if nodes == 0 || nodes > ROWS {
        bail!("from 1 to 1,000,000 nodes are wanted");
    }
    let Ok(setting) = make_setting(alloc, nodes) else {
        bail!("no memory for the rows");
    };
    measure(rt, alloc, setting, nodes)
}

fn measure(
    rt: &(impl Clock + Print + Eprint + AllocGlobal),
    alloc: Global,
    setting: Setting,
    nodes: u32,
) -> Result<()> {
    let Some(graph) = Graph::of(
        setting.nodes,
        Sequence::new(alloc),
        nodes.saturating_add(1),
        1,
    ) else {
        bail!("the nodes are no graph");
    };
    let columns = setting.columns.as_slice();
    let Ok(prepared) = Prepared::new(alloc, columns, &setting.params, &setting.condition) else {
        bail!("no memory for the condition");
    };
    let begun = Instant::now(rt)?;
    let mut holding: u32 = 0;
    for row in setting.rows.as_slice() {
        match holds(alloc, &graph, &prepared, row) {
            Ok(true) => holding = holding.saturating_add(1),
            Ok(false) => {}
            Err(EvalError::Fault(_)) => bail!("a fault"),
            Err(EvalError::OutOfMemory) => bail!("no memory for a value"),
        }
    }
    let took = begun.elapsed(rt)?.as_millis();
    println!(rt; "rows {} holding {holding}", setting.rows.len())?;
    eprintln!(rt; "{took} ms for {ROWS} rows over {nodes} nodes")?;
    Ok(())
}

/// Whether the condition is true over a row.
fn holds(alloc: Global, graph: &Graph, condition: &Prepared, row: &Row) -> Result<bool, EvalError> {
    let held = condition.value(alloc, graph, row.as_slice())?;
    Ok(matches!(held.value(), Value::Bool(true)))
}

fn make_setting(alloc: Global, nodes: u32) -> Result<Setting, OutOfMemory> {
    Ok(Setting {
        nodes: node_records(alloc, nodes)?,
        columns: columns(alloc)?,
        rows: rows(alloc, nodes)?,
        params: params(alloc)?,
        condition: condition(alloc)?,
    })
}

/// Nodes with a number in `a`, and in `b` the text that is compared, in every other one.
fn node_records(alloc: Global, nodes: u32) -> Result<NodeRecords, OutOfMemory> {
    let mut records = Sequence::new(alloc);
    for number in 1..=nodes {
        records.push(node_record(alloc, number)?)?;
    }
    Ok(records)
}

fn node_record(alloc: Global, number: u32) -> Result<NodeRecord, OutOfMemory> {
    let text = if number % 2 == 0 { "text" } else { "tent" };
    let mut items = Vec::new(alloc);
    items.push((
        Text::from_str(alloc, "a")?,
        Value::Int(i64::from(number % 100)),
    ))?;
    items.push((
        Text::from_str(alloc, "b")?,
        Value::Text(Text::from_str(alloc, text)?),
    ))?;
    Ok(NodeRecord {
        number: NodeId(number),
        labels: Names::new(alloc),
        properties: Properties::from_vec(items),
    })
}

fn columns(alloc: Global) -> Result<Columns, OutOfMemory> {
    let mut columns = Columns::new(alloc);
    columns.push((Text::from_str(alloc, "x")?, ColumnKind::Node))?;
    columns.push((Text::from_str(alloc, "y")?, ColumnKind::Node))?;
    Ok(columns)
}

/// Rows of two nodes each, spread over the graph.
fn rows(alloc: Global, nodes: u32) -> Result<Rows, OutOfMemory> {
    let mut rows = Sequence::new(alloc);
    for number in 0..ROWS {
        rows.push(row(alloc, number, nodes)?)?;
    }
    Ok(rows)
}

fn row(alloc: Global, number: u32, nodes: u32) -> Result<Row, OutOfMemory> {
    let mut row = List::new(alloc);
    row.push(Value::Node(node_at(number, 7919, nodes)))?;
    row.push(Value::Node(node_at(number, 104_729, nodes)))?;
    Ok(row)
}

fn node_at(number: u32, factor: u32, nodes: u32) -> NodeId {
    NodeId(
        number
            .wrapping_mul(factor)
            .checked_rem(nodes)
            .unwrap_or(0)
            .saturating_add(1),
    )
}

fn params(alloc: Global) -> Result<Params, OutOfMemory> {
    let mut items = Vec::new(alloc);
    items.push((Text::from_str(alloc, "k")?, Value::Int(50)))?;
    Ok(Properties::from_vec(items))
}

/// `x.a + 1 > $k AND NOT y.b = 'text'`
fn condition(alloc: Global) -> Result<Expr, OutOfMemory> {
    let mut steps = Steps::new(alloc);
    steps.push(Step {
        operator: Operator::And,
        operand: Expr::Not(Sub::new(alloc, same_text(alloc)?)?),
    })?;
    Ok(Expr::And(Sub::new(alloc, above(alloc)?)?, steps))
}

/// `x.a + 1 > $k`
fn above(alloc: Global) -> Result<Expr, OutOfMemory> {
    let parameter = Expr::Parameter(Text::from_str(alloc, "k")?);
    let sum = Sub::new(alloc, one_more(alloc)?)?;
    Ok(Expr::Compare(Comparison::Gt, sum, Sub::new(alloc, parameter)?))
}

/// `x.a + 1`
fn one_more(alloc: Global) -> Result<Expr, OutOfMemory> {
    let mut steps = Steps::new(alloc);
    steps.push(Step {
        operator: Operator::Add,
        operand: Expr::Number(Text::from_str(alloc, "1")?),
    })?;
    Ok(Expr::Sum(Sub::new(alloc, property(alloc, "x", "a")?)?, steps))
}

/// `y.b = 'text'`
fn same_text(alloc: Global) -> Result<Expr, OutOfMemory> {
    let text = Expr::Constant(Value::Text(Text::from_str(alloc, "text")?));
    let property = Sub::new(alloc, property(alloc, "y", "b")?)?;
    Ok(Expr::Compare(Comparison::Eq, property, Sub::new(alloc, text)?))
}

fn property(alloc: Global, name: &str, key: &str) -> Result<Expr, OutOfMemory> {
    Ok(Expr::Property(Text::from_str(alloc, name)?, Text::from_str(alloc, key)?))
}
