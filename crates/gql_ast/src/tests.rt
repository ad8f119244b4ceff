//! That trees are copied and printed with ample memory, and that want of memory is a fault of its own.

use crate::text::{Setting, push_escaped, push_label, push_parameter, push_property};
use crate::{
    Direction, Expr, Exprs, Filler, LabelExpr, LabelList, LabelSub, Operator, ParseFault, PathExpr,
    PathList, PathSub, Step, Steps, Sub, expr_text, push_any_name, push_digits, push_header,
    push_name, push_number, push_value,
};
use gql_values3::{OutOfMemory, Text, Value};
use std::alloc::Global;
use std::test::Fail;

#[test]
fn expressions_are_copied_in_order(rt: HostRuntime) -> Result<(), Fail> {
    let mut exprs = Exprs::new(rt.alloc());
    exprs.push(Expr::Unknown)?;
    let copy = exprs.try_copy(rt.alloc())?;
    assert!(rt; matches!(copy.as_slice(), [Expr::Unknown]));
    Ok(())
}

/// `OR UNKNOWN`
fn or_unknown() -> Step {
    Step {
        operator: Operator::Or,
        operand: Expr::Unknown,
    }
}

#[test]
fn steps_are_copied_in_order(rt: HostRuntime) -> Result<(), Fail> {
    let mut steps = Steps::new(rt.alloc());
    steps.push(or_unknown())?;
    let copy = steps.try_copy(rt.alloc())?;
    assert_eq!(rt; copy.len(), 1);
    Ok(())
}

/// `NOT UNKNOWN`
fn negated(alloc: Global) -> Result<Expr, OutOfMemory> {
    Ok(Expr::Not(Sub::new(alloc, Expr::Unknown)?))
}

#[test]
fn a_copy_is_a_negation(rt: HostRuntime) -> Result<(), Fail> {
    let made = negated(rt.alloc())?;
    let copy = made.try_copy(rt.alloc())?;
    assert!(rt; matches!(copy, Expr::Not(_)));
    Ok(())
}

#[test]
fn a_negation_prints(rt: HostRuntime) -> Result<(), Fail> {
    let text = expr_text(rt.alloc(), &negated(rt.alloc())?)?;
    assert_eq!(rt; text.as_str(), "NOT UNKNOWN");
    Ok(())
}

#[test]
fn labels_are_copied_and_printed(rt: HostRuntime) -> Result<(), Fail> {
    let mut rest = LabelList::new(rt.alloc());
    rest.push(LabelExpr::Wildcard)?;
    let labels = LabelExpr::Or(LabelSub::new(rt.alloc(), LabelExpr::Wildcard)?, rest);
    let mut text = Text::new(rt.alloc());
    push_label(&mut text, &labels.try_copy(rt.alloc())?)?;
    assert_eq!(rt; text.as_str(), "%|%");
    Ok(())
}

/// `-`
fn any_edge() -> PathExpr {
    let filler = Filler {
        variable: None,
        labels: None,
        condition: None,
    };
    PathExpr::Edge(Direction::Any, filler)
}

#[test]
fn paths_keep_their_parts(rt: HostRuntime) -> Result<(), Fail> {
    let part = PathSub::new(rt.alloc(), any_edge())?;
    let mut paths = PathList::new(rt.alloc());
    paths.push(PathExpr::Optional(part))?;
    assert!(rt; matches!(paths.as_slice(), [PathExpr::Optional(_)]));
    Ok(())
}

#[test]
fn names_print(rt: HostRuntime) -> Result<(), Fail> {
    let mut text = Text::new(rt.alloc());
    push_name(&mut text, "a`b")?;
    push_any_name(&mut text, "order")?;
    push_header(&mut text, "'\n")?;
    assert_eq!(rt; text.as_str(), "`a``b`order'\\n");
    Ok(())
}

#[test]
fn parameters_and_properties_print(rt: HostRuntime) -> Result<(), Fail> {
    let mut text = Text::new(rt.alloc());
    push_parameter(&mut text, "p")?;
    push_property(&mut text, "x", "n")?;
    push_escaped(&mut text, Setting::String, "'")?;
    assert_eq!(rt; text.as_str(), "$px.n\\'");
    Ok(())
}

#[test]
fn numbers_print(rt: HostRuntime) -> Result<(), Fail> {
    let mut text = Text::new(rt.alloc());
    push_number(&mut text, 10)?;
    push_digits(&mut text, "007")?;
    push_value(&mut text, &Value::Int(-7))?;
    assert_eq!(rt; text.as_str(), "107-7");
    Ok(())
}

#[test]
fn want_of_memory_is_a_parse_fault(rt: HostRuntime) {
    let fault = ParseFault::from(OutOfMemory);
    assert_eq!(rt; fault, ParseFault::OutOfMemory);
}
