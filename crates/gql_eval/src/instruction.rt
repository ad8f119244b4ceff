//! The steps that an expression is made into.

use crate::cow::CowValue;
use crate::places::Places;
use gql_ast::{Aggregate, Expr, Operator, SetQuantifier};
use gql_values3::Text;

/// A step over a stack of values. Its meaning is `op_of`; what it does is said in `specs/Machinery/Steps.antt`.
#[derive(Drop)]
pub enum Instruction<'a> {
    /// Puts the value on top.
    Fixed(CowValue<'a>),
    /// Puts what the name stands for, by its places.
    Name(Places, &'a Text),
    /// Puts a property of what the name stands for.
    Property(Places, &'a Text, &'a Text),
    /// Puts what the expression makes of its operand.
    OfOne(&'a Expr),
    /// Puts what the expression makes of its two operands.
    OfTwo(&'a Expr),
    /// Joins the two on top by the operator of a sum or a product.
    JoinSide(Operator),
    /// Reads the top as a truth.
    AsTruth,
    /// Joins the two on top by AND.
    JoinAll,
    /// Joins the two on top by OR or XOR.
    JoinAny(Operator),
    /// Skips so many of the steps behind it where the boolean stands on top.
    SkipIf(bool, usize),
    /// Puts a list without items.
    StartList,
    /// Puts the top behind the items of the list below it.
    AddItem,
    /// Makes a value of the list on top, where it is within the limits.
    EndList,
    /// Takes the top away where it is NULL; where it is not, skips so many of the steps behind it.
    OrElse(usize),
    /// Puts an aggregate over a group; so many steps behind it are those of its argument, and are skipped.
    OverGroup(Aggregate, SetQuantifier, &'a Expr, usize),
}
