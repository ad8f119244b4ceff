//! Copies of expressions and of their parts.

ghost use Rattle.std.specs.Prelude.{◌≡◌, IfOk};
ghost use Rattle.gql_ast.specs.Meaning.{tree_of, link_of};

use crate::expr::{Expr, Exprs, Step, Steps, Sub};
use gql_values3::OutOfMemory;
use std::alloc::Global;

impl Sub {
    /// An equal part.
    #[cycle(expr_copy)]
    pub fn try_copy(&self, alloc: Global) -> Result<Sub, OutOfMemory>
        ensures { IfOk result (λ copy. copy ≡ self.now) }
    {
        Sub::new(alloc, self.expr.try_copy(alloc)?)
    }
}

impl Exprs {
    /// An equal list.
    #[cycle(expr_copy)]
    pub fn try_copy(&self, alloc: Global) -> Result<Exprs, OutOfMemory>
        ensures { IfOk result (λ copy. copy ≡ self.now) }
    {
        let mut items = Vec::new(alloc);
        for item in &self.items {
            items.push(item.try_copy(alloc)?)?;
        }
        Ok(Exprs { items })
    }
}

impl Steps {
    /// An equal list.
    #[cycle(expr_copy)]
    pub fn try_copy(&self, alloc: Global) -> Result<Steps, OutOfMemory>
        ensures { IfOk result (λ copy. copy ≡ self.now) }
    {
        let mut items = Vec::new(alloc);
        for item in &self.items {
            items.push(item.try_copy(alloc)?)?;
        }
        Ok(Steps { items })
    }
}

impl Step {
    /// A step that means the same.
    #[cycle(expr_copy)]
    pub fn try_copy(&self, alloc: Global) -> Result<Step, OutOfMemory>
        ensures { IfOk result (λ copy. link_of copy ≡ link_of self.now) }
    {
        Ok(Step {
            operator: self.operator,
            operand: self.operand.try_copy(alloc)?,
        })
    }
}

impl Expr {
    /// An expression that means the same.
    #[cycle(expr_copy)]
    pub fn try_copy(&self, alloc: Global) -> Result<Expr, OutOfMemory>
        ensures { IfOk result (λ copy. tree_of copy ≡ tree_of self.now) }
    {
        match self {
            Expr::Constant(value) => Ok(Expr::Constant(value.try_copy(alloc)?)),
            Expr::Unknown => Ok(Expr::Unknown),
            Expr::Number(digits) => Ok(Expr::Number(digits.try_copy(alloc)?)),
            Expr::Parameter(name) => Ok(Expr::Parameter(name.try_copy(alloc)?)),
            Expr::Name(name) => Ok(Expr::Name(name.try_copy(alloc)?)),
            Expr::Property(name, property) => {
                Ok(Expr::Property(name.try_copy(alloc)?, property.try_copy(alloc)?))
            }
            Expr::Paren(sub) => Ok(Expr::Paren(sub.try_copy(alloc)?)),
            Expr::List(items) => Ok(Expr::List(items.try_copy(alloc)?)),
            Expr::CountAll => Ok(Expr::CountAll),
            Expr::Aggregate(word, quantifier, sub) => {
                Ok(Expr::Aggregate(*word, *quantifier, sub.try_copy(alloc)?))
            }
            Expr::Call(function, sub) => Ok(Expr::Call(*function, sub.try_copy(alloc)?)),
            Expr::Mod(a, b) => Ok(Expr::Mod(a.try_copy(alloc)?, b.try_copy(alloc)?)),
            Expr::Coalesce(first, rest) => {
                Ok(Expr::Coalesce(first.try_copy(alloc)?, rest.try_copy(alloc)?))
            }
            Expr::Signed(sign, sub) => Ok(Expr::Signed(*sign, sub.try_copy(alloc)?)),
            Expr::Product(first, steps) => {
                Ok(Expr::Product(first.try_copy(alloc)?, steps.try_copy(alloc)?))
            }
            Expr::Sum(first, steps) => {
                Ok(Expr::Sum(first.try_copy(alloc)?, steps.try_copy(alloc)?))
            }
            Expr::Compare(comparison, a, b) => {
                Ok(Expr::Compare(*comparison, a.try_copy(alloc)?, b.try_copy(alloc)?))
            }
            Expr::Is(sub, sense, quality) => Ok(Expr::Is(sub.try_copy(alloc)?, *sense, *quality)),
            Expr::IsLabeled(sub, sense, labels) => {
                Ok(Expr::IsLabeled(sub.try_copy(alloc)?, *sense, labels.try_copy(alloc)?))
            }
            Expr::IsEnd(sub, sense, end, edge) => {
                Ok(Expr::IsEnd(sub.try_copy(alloc)?, *sense, *end, edge.try_copy(alloc)?))
            }
            Expr::Not(sub) => Ok(Expr::Not(sub.try_copy(alloc)?)),
            Expr::And(first, steps) => {
                Ok(Expr::And(first.try_copy(alloc)?, steps.try_copy(alloc)?))
            }
            Expr::Or(first, steps) => Ok(Expr::Or(first.try_copy(alloc)?, steps.try_copy(alloc)?)),
        }
    }
}
