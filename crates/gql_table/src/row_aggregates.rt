//! The aggregates over rows of an expression.

ghost use Rattle.std.specs.Prelude.{◌≡◌, ◌++◌, [], ◌∷◌, length, map, IfOk, OnOk};
ghost use Rattle.std.specs.Option.{option_copied};
ghost use Rattle.gql_ast.specs.Tree.{trees_of, links_of};
ghost use Rattle.gql_ast.specs.Meaning.{tree_of, link_of};
ghost use Rattle.gql_ast.specs.RowAggregates.{row_aggregates, row_aggregates_of, row_aggregates_in};
ghost use Rattle.gql_table.specs.Machinery.AggregateMeaning.{aggregate_meant, argument_meant};

use crate::aggregation::has_row_aggregate;
use gql_ast::{Aggregate, Expr, SetQuantifier, Step};
use gql_values3::{ColumnKind, OutOfMemory, Text, Value};
use std::alloc::Global;

/// An aggregate over rows of an expression. COUNT(*) has no argument. Its meaning is `aggregate_meant`.
#[derive(Clone, Copy)]
pub struct AggregateRef<'a> {
    pub makes: Aggregate,
    pub quantifier: SetQuantifier,
    pub argument: Option<&'a Expr>,
}

/// The aggregates over rows of an expression, in the order of the text. The values, of which only the number counts,
/// are one for each column.
pub fn list_aggregates<'a>(
    alloc: Global,
    columns: &[(Text, ColumnKind)],
    blank: &[Value],
    expr: &'a Expr,
) -> Result<Vec<AggregateRef<'a>>, OutOfMemory>
    requires { length blank.now ≡ length columns.now }
    ensures { IfOk result (λ found. map aggregate_meant found.items ≡ row_aggregates columns.now (tree_of expr.now)) }
{
    let mut found = Vec::new(alloc);
    add_of_expr(&mut found, columns, blank, expr)?;
    Ok(found)
}

/// Adds the aggregates over rows of an expression.
#[cycle(row_aggregates)]
#[tactic(auto, using(crate::proofs::AroundLemmas::both_added), unfolding(gql_ast::specs::RowAggregates::row_aggregates))]
fn add_of_expr<'a>(
    found: &mut Vec<AggregateRef<'a>>,
    columns: &[(Text, ColumnKind)],
    blank: &[Value],
    expr: &'a Expr,
) -> Result<(), OutOfMemory>
    requires { length blank.now ≡ length columns.now }
    ensures { OnOk result (map aggregate_meant found.new.items ≡ map aggregate_meant found.old.items ++ row_aggregates columns.now (tree_of expr.now)) }
{
    match expr {
        Expr::Constant(_) | Expr::Unknown | Expr::Number(_) | Expr::Parameter(_) => Ok(()),
        Expr::Name(_) | Expr::Property(_, _) => Ok(()),
        Expr::CountAll => add(found, Aggregate::Count, SetQuantifier::All, None),
        Expr::Aggregate(makes, quantifier, part) => {
            if has_row_aggregate(columns, blank, expr) {
                add(found, *makes, *quantifier, Some(part.expr()))
            } else {
                Ok(())
            }
        }
        Expr::Paren(part) | Expr::Call(_, part) | Expr::Signed(_, part) | Expr::Not(part) => {
            add_of_expr(found, columns, blank, part.expr())
        }
        Expr::Is(part, _, _) | Expr::IsLabeled(part, _, _) | Expr::IsEnd(part, _, _, _) => {
            add_of_expr(found, columns, blank, part.expr())
        }
        Expr::List(parts) => add_of_parts(found, columns, blank, parts.as_slice()),
        Expr::Mod(a, b) | Expr::Compare(_, a, b) => {
            add_of_expr(found, columns, blank, a.expr())?;
            add_of_expr(found, columns, blank, b.expr())
        }
        Expr::Coalesce(first, rest) => {
            add_of_expr(found, columns, blank, first.expr())?;
            add_of_parts(found, columns, blank, rest.as_slice())
        }
        Expr::Product(first, steps)
        | Expr::Sum(first, steps)
        | Expr::And(first, steps)
        | Expr::Or(first, steps) => {
            add_of_expr(found, columns, blank, first.expr())?;
            add_of_steps(found, columns, blank, steps.as_slice())
        }
    }
}

#[cycle(row_aggregates)]
#[tactic(auto, using(crate::proofs::AroundLemmas::both_added), unfolding(gql_ast::specs::RowAggregates::row_aggregates))]
fn add_of_parts<'a>(
    found: &mut Vec<AggregateRef<'a>>,
    columns: &[(Text, ColumnKind)],
    blank: &[Value],
    parts: &'a [Expr],
) -> Result<(), OutOfMemory>
    requires { length blank.now ≡ length columns.now }
    ensures { OnOk result (map aggregate_meant found.new.items ≡ map aggregate_meant found.old.items ++ row_aggregates_of columns.now (trees_of (map tree_of parts.now))) }
{
    for i in 0..parts.len() {
        let part = &parts[i];
        add_of_expr(found, columns, blank, part)?;
    }
    Ok(())
}

#[cycle(row_aggregates)]
#[tactic(auto, using(crate::proofs::AroundLemmas::both_added), unfolding(gql_ast::specs::RowAggregates::row_aggregates))]
fn add_of_steps<'a>(
    found: &mut Vec<AggregateRef<'a>>,
    columns: &[(Text, ColumnKind)],
    blank: &[Value],
    steps: &'a [Step],
) -> Result<(), OutOfMemory>
    requires { length blank.now ≡ length columns.now }
    ensures { OnOk result (map aggregate_meant found.new.items ≡ map aggregate_meant found.old.items ++ row_aggregates_in columns.now (links_of (map link_of steps.now))) }
{
    for i in 0..steps.len() {
        let step = &steps[i];
        add_of_expr(found, columns, blank, &step.operand)?;
    }
    Ok(())
}

/// Adds one aggregate.
fn add<'a>(
    found: &mut Vec<AggregateRef<'a>>,
    makes: Aggregate,
    quantifier: SetQuantifier,
    argument: Option<&'a Expr>,
) -> Result<(), OutOfMemory>
    ensures { OnOk result (map aggregate_meant found.new.items ≡ map aggregate_meant found.old.items ++ record { makes = makes; quantifier = quantifier; argument = argument_meant (option_copied argument.entry) } ∷ []) }
{
    found.push(AggregateRef {
        makes,
        quantifier,
        argument,
    })?;
    Ok(())
}
