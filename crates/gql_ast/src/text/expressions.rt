//! The canonical text of an expression, part by part.

ghost use Rattle.std.specs.Prelude.{◌≡◌, ◌++◌, IfOk, OnOk, map};
ghost use Rattle.gql_ast.specs.Tree.{trees_of, links_of};
ghost use Rattle.gql_ast.specs.Meaning.{tree_of, link_of};
ghost use Rattle.gql_ast.specs.ExprText.{expr_text, exprs_text, more_exprs_text, links_text};

use super::labels::push_label;
use super::names::{push_name, push_parameter, push_property};
use super::numbers::push_digits;
use super::values::push_value;
use super::words;
use crate::expr::{Expr, Step};
use gql_values3::{OutOfMemory, Text};
use std::alloc::Global;

/// The canonical text of an expression.
pub fn expr_text(alloc: Global, expr: &Expr) -> Result<Text, OutOfMemory>
    ensures { IfOk result (λ text. text ≡ expr_text (tree_of expr.now)) }
{
    let mut text = Text::new(alloc);
    push_expr(&mut text, expr)?;
    Ok(text)
}

/// Adds the canonical text of an expression.
#[cycle(expr_text)]
#[tactic(auto, unfolding(crate::specs::ExprText::expr_text))]
pub fn push_expr(text: &mut Text, expr: &Expr) -> Result<(), OutOfMemory>
    ensures { OnOk result (text.new ≡ text.old ++ expr_text (tree_of expr.now)) }
{
    match expr {
        Expr::Constant(value) => push_value(text, value),
        Expr::Unknown => text.push_str("UNKNOWN"),
        Expr::Number(digits) => push_digits(text, digits.as_str()),
        Expr::Parameter(name) => push_parameter(text, name.as_str()),
        Expr::Name(name) => push_name(text, name.as_str()),
        Expr::Property(name, key) => push_property(text, name.as_str(), key.as_str()),
        Expr::Paren(part) => push_between(text, "(", part.expr(), ")"),
        Expr::List(parts) => {
            text.push_str("[")?;
            push_exprs(text, parts.as_slice())?;
            text.push_str("]")
        }
        Expr::CountAll => text.push_str("COUNT(*)"),
        Expr::Aggregate(word, quantifier, part) => {
            push_between(
                text,
                words::aggregate_words(*word, *quantifier),
                part.expr(),
                ")",
            )
        }
        Expr::Call(function, part) => {
            push_between(text, words::function_words(*function), part.expr(), ")")
        }
        Expr::Mod(a, b) => {
            push_between(text, "MOD(", a.expr(), ", ")?;
            push_between(text, "", b.expr(), ")")
        }
        Expr::Coalesce(first, rest) => {
            push_between(text, "COALESCE(", first.expr(), "")?;
            push_more_exprs(text, rest.as_slice())?;
            text.push_str(")")
        }
        Expr::Signed(sign, part) => push_between(text, words::sign_words(*sign), part.expr(), ""),
        Expr::Compare(comparison, a, b) => {
            push_expr(text, a.expr())?;
            push_between(text, words::comparison_words(*comparison), b.expr(), "")
        }
        Expr::Is(part, sense, quality) => {
            push_between(
                text,
                "",
                part.expr(),
                words::quality_words(*sense, *quality),
            )
        }
        Expr::IsLabeled(part, sense, labels) => {
            push_between(text, "", part.expr(), words::labeled_words(*sense))?;
            push_label(text, labels)
        }
        Expr::IsEnd(part, sense, end, edge) => {
            push_between(text, "", part.expr(), words::end_words(*sense, *end))?;
            push_name(text, edge.as_str())
        }
        Expr::Not(part) => push_between(text, "NOT ", part.expr(), ""),
        Expr::Product(first, steps)
        | Expr::Sum(first, steps)
        | Expr::And(first, steps)
        | Expr::Or(first, steps) => {
            push_expr(text, first.expr())?;
            push_steps(text, steps.as_slice())
        }
    }
}

/// Adds an expression between two texts.
#[cycle(expr_text)]
fn push_between(text: &mut Text, before: &str, expr: &Expr, behind: &str) -> Result<(), OutOfMemory>
    ensures { OnOk result (text.new ≡ text.old ++ (before.now ++ (expr_text (tree_of expr.now) ++ behind.now))) }
{
    text.push_str(before)?;
    push_expr(text, expr)?;
    text.push_str(behind)
}

/// Adds the items of a list, with a comma and a space between two.
#[cycle(expr_text)]
#[tactic(auto, unfolding(crate::specs::ExprText::expr_text))]
fn push_exprs(text: &mut Text, exprs: &[Expr]) -> Result<(), OutOfMemory>
    ensures { OnOk result (text.new ≡ text.old ++ exprs_text (trees_of (map tree_of exprs.now))) }
{
    match exprs.split_first() {
        None => Ok(()),
        Some((first, rest)) => {
            push_expr(text, first)?;
            push_more_exprs(text, rest)
        }
    }
}

/// Adds expressions, each behind a comma and a space.
#[cycle(expr_text)]
#[tactic(auto, unfolding(crate::specs::ExprText::expr_text))]
fn push_more_exprs(text: &mut Text, exprs: &[Expr]) -> Result<(), OutOfMemory>
    ensures { OnOk result (text.new ≡ text.old ++ more_exprs_text (trees_of (map tree_of exprs.now))) }
{
    for i in 0..exprs.len() {
        push_between(text, ", ", &exprs[i], "")?;
    }
    Ok(())
}

/// Adds the later sides of a chain, each behind its operator.
#[cycle(expr_text)]
#[tactic(auto, unfolding(crate::specs::ExprText::expr_text))]
fn push_steps(text: &mut Text, steps: &[Step]) -> Result<(), OutOfMemory>
    ensures { OnOk result (text.new ≡ text.old ++ links_text (links_of (map link_of steps.now))) }
{
    for i in 0..steps.len() {
        let step = &steps[i];
        push_between(
            text,
            words::operator_words(step.operator),
            &step.operand,
            "",
        )?;
    }
    Ok(())
}
