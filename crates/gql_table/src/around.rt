//! The expression around its aggregates over rows.

ghost use Rattle.std.specs.Prelude.{◌≡◌, ◌+◌, length, map, IfOk, OnOk};
ghost use Rattle.gql_ast.specs.Tree.{name, link, trees_of, links_of};
ghost use Rattle.gql_ast.specs.Meaning.{tree_of, link_of};
ghost use Rattle.gql_ast.specs.RowAggregates.{around, around_all, around_links, result_name, row_aggregates, row_aggregates_of, row_aggregates_in};

use crate::aggregation::has_row_aggregate;
use gql_ast::{Expr, Exprs, Step, Steps, Sub, push_number};
use gql_values3::{ColumnKind, OutOfMemory, Text, Value};
use std::alloc::Global;

/// The expression around its aggregates over rows: each is replaced by the name of its result, counted from 0. The
/// values, of which only the number counts, are one for each column.
pub fn around(
    alloc: Global,
    columns: &[(Text, ColumnKind)],
    blank: &[Value],
    expr: &Expr,
) -> Result<Expr, OutOfMemory>
    requires { length blank.now ≡ length columns.now }
    ensures { IfOk result (λ e. tree_of e ≡ around columns.now 0 (tree_of expr.now)) }
{
    let walk = Walk {
        alloc,
        columns,
        blank,
    };
    let mut next = 0;
    in_expr(&walk, &mut next, expr)
}

/// What stays the same throughout an expression.
#[derive(Clone, Copy)]
struct Walk<'a> {
    alloc: Global,
    columns: &'a [(Text, ColumnKind)],
    blank: &'a [Value],
}

/// The expression around its aggregates, whose results are counted from `next` on.
#[cycle(around)]
#[tactic(auto, using(crate::proofs::AroundLemmas::both_counted), unfolding(gql_ast::specs::RowAggregates::row_aggregates, gql_ast::specs::RowAggregates::around))]
fn in_expr(walk: &Walk, next: &mut u64, expr: &Expr) -> Result<Expr, OutOfMemory>
    requires { length walk.now.blank.now ≡ length walk.now.columns.now }
    ensures replaced { IfOk result (λ e. tree_of e ≡ around walk.now.columns.now next.old (tree_of expr.now)) }
    ensures counted { OnOk result (next.new ≡ next.old + length (row_aggregates walk.now.columns.now (tree_of expr.now))) }
{
    match expr {
        Expr::Constant(_) | Expr::Unknown | Expr::Number(_) => expr.try_copy(walk.alloc),
        Expr::Parameter(_) | Expr::Name(_) | Expr::Property(_, _) => expr.try_copy(walk.alloc),
        Expr::CountAll => next_name(walk.alloc, next),
        Expr::Aggregate(_, _, _) => {
            if has_row_aggregate(walk.columns, walk.blank, expr) {
                next_name(walk.alloc, next)
            } else {
                expr.try_copy(walk.alloc)
            }
        }
        Expr::Paren(a) => Ok(Expr::Paren(in_part(walk, next, a)?)),
        Expr::List(items) => Ok(Expr::List(in_parts(walk, next, items)?)),
        Expr::Call(word, a) => Ok(Expr::Call(*word, in_part(walk, next, a)?)),
        Expr::Mod(a, b) => Ok(Expr::Mod(in_part(walk, next, a)?, in_part(walk, next, b)?)),
        Expr::Coalesce(a, rest) => {
            Ok(Expr::Coalesce(in_part(walk, next, a)?, in_parts(walk, next, rest)?))
        }
        Expr::Signed(sign, a) => Ok(Expr::Signed(*sign, in_part(walk, next, a)?)),
        Expr::Product(a, rest) => {
            Ok(Expr::Product(in_part(walk, next, a)?, in_sides(walk, next, rest)?))
        }
        Expr::Sum(a, rest) => Ok(Expr::Sum(in_part(walk, next, a)?, in_sides(walk, next, rest)?)),
        Expr::Compare(sign, a, b) => {
            Ok(Expr::Compare(*sign, in_part(walk, next, a)?, in_part(walk, next, b)?))
        }
        Expr::Is(a, sense, quality) => Ok(Expr::Is(in_part(walk, next, a)?, *sense, *quality)),
        Expr::IsLabeled(a, sense, label) => {
            Ok(Expr::IsLabeled(in_part(walk, next, a)?, *sense, label.try_copy(walk.alloc)?))
        }
        Expr::IsEnd(a, sense, end, edge) => {
            Ok(Expr::IsEnd(
                in_part(walk, next, a)?,
                *sense,
                *end,
                edge.try_copy(walk.alloc)?,
            ))
        }
        Expr::Not(a) => Ok(Expr::Not(in_part(walk, next, a)?)),
        Expr::And(a, rest) => Ok(Expr::And(in_part(walk, next, a)?, in_sides(walk, next, rest)?)),
        Expr::Or(a, rest) => Ok(Expr::Or(in_part(walk, next, a)?, in_sides(walk, next, rest)?)),
    }
}

#[cycle(around)]
fn in_part(walk: &Walk, next: &mut u64, part: &Sub) -> Result<Sub, OutOfMemory>
    requires { length walk.now.blank.now ≡ length walk.now.columns.now }
    ensures replaced { IfOk result (λ made. made ≡ around walk.now.columns.now next.old part.now) }
    ensures counted { OnOk result (next.new ≡ next.old + length (row_aggregates walk.now.columns.now part.now)) }
{
    Sub::new(walk.alloc, in_expr(walk, next, part.expr())?)
}

#[cycle(around)]
#[tactic(auto, unfolding(gql_ast::specs::RowAggregates::row_aggregates, gql_ast::specs::RowAggregates::around))]
fn in_parts(walk: &Walk, next: &mut u64, parts: &Exprs) -> Result<Exprs, OutOfMemory>
    requires { length walk.now.blank.now ≡ length walk.now.columns.now }
    ensures replaced { IfOk result (λ made. trees_of made ≡ around_all walk.now.columns.now next.old (trees_of parts.now)) }
    ensures counted { OnOk result (next.new ≡ next.old + length (row_aggregates_of walk.now.columns.now (trees_of parts.now))) }
{
    let items = parts.as_slice();
    let mut made = Exprs::new(walk.alloc);
    for i in 0..items.len() {
        made.push(in_expr(walk, next, &items[i])?)?;
    }
    Ok(made)
}

#[cycle(around)]
#[tactic(auto, unfolding(gql_ast::specs::RowAggregates::row_aggregates, gql_ast::specs::RowAggregates::around))]
fn in_sides(walk: &Walk, next: &mut u64, sides: &Steps) -> Result<Steps, OutOfMemory>
    requires { length walk.now.blank.now ≡ length walk.now.columns.now }
    ensures replaced { IfOk result (λ made. links_of made ≡ around_links walk.now.columns.now next.old (links_of sides.now)) }
    ensures counted { OnOk result (next.new ≡ next.old + length (row_aggregates_in walk.now.columns.now (links_of sides.now))) }
{
    let items = sides.as_slice();
    let mut made = Steps::new(walk.alloc);
    for i in 0..items.len() {
        made.push(in_side(walk, next, &items[i])?)?;
    }
    Ok(made)
}

#[cycle(around)]
fn in_side(walk: &Walk, next: &mut u64, side: &Step) -> Result<Step, OutOfMemory>
    requires { length walk.now.blank.now ≡ length walk.now.columns.now }
    ensures replaced { IfOk result (λ made. link_of made ≡ link side.now.operator (around walk.now.columns.now next.old (tree_of side.now.operand))) }
    ensures counted { OnOk result (next.new ≡ next.old + length (row_aggregates walk.now.columns.now (tree_of side.now.operand))) }
{
    Ok(Step {
        operator: side.operator,
        operand: in_expr(walk, next, &side.operand)?,
    })
}

/// The name of the next result. One that has no number of 64 bits is answered as want of memory.
fn next_name(alloc: Global, next: &mut u64) -> Result<Expr, OutOfMemory>
    ensures named { IfOk result (λ e. tree_of e ≡ name (result_name next.old)) }
    ensures counted { OnOk result (next.new ≡ next.old + 1) }
{
    if *next == u64::MAX {
        return Err(OutOfMemory);
    }
    let mut text = Text::new(alloc);
    push_number(&mut text, *next)?;
    *next += 1;
    Ok(Expr::Name(text))
}
