//! Expressions, and the lists of their parts.

ghost use Rattle.std.specs.Prelude.{◌≡◌, [], ◌∷◌, ◌++◌, map, length, IfOk, OnOk, OnErr, ◌==◌};
ghost use Rattle.gql_ast.specs.Meaning.{tree_of, link_of};

use crate::label::LabelExpr;
use crate::words::{Aggregate, EdgeEnd, Function, Operator, Quality, Sense, SetQuantifier, Sign};
use gql_values3::{Comparison, OutOfMemory, Text, Value};
use std::alloc::Global;
use std::marker::Model;

mod copies;

/// An expression. Its meaning is `tree_of`.
#[cycle(expr)]
#[derive(Drop)]
pub enum Expr {
    /// TRUE, FALSE, NULL or a string.
    Constant(Value),
    /// UNKNOWN.
    Unknown,
    /// A number, by its digits as written.
    Number(Text),
    /// A parameter, by its name without `$`.
    Parameter(Text),
    /// A variable.
    Name(Text),
    /// A property of a variable: the variable, and the property.
    Property(Text, Text),
    /// An expression in parentheses.
    Paren(Sub),
    /// The items of a list.
    List(Exprs),
    /// `COUNT(*)`.
    CountAll,
    /// An aggregate of an expression.
    Aggregate(Aggregate, SetQuantifier, Sub),
    /// A function of one expression.
    Call(Function, Sub),
    /// `MOD(a, b)`.
    Mod(Sub, Sub),
    /// COALESCE of two or more: the first, and the others in order.
    Coalesce(Sub, Exprs),
    /// A sign and its operand.
    Signed(Sign, Sub),
    /// Two or more sides between `*` and `/`: the first, and the others each with its operator.
    Product(Sub, Steps),
    /// The same between `+`, `-` and `||`.
    Sum(Sub, Steps),
    /// A comparison of two sides.
    Compare(Comparison, Sub, Sub),
    /// IS or IS NOT, and what is asked by one word.
    Is(Sub, Sense, Quality),
    /// IS or IS NOT LABELED. `x:A` is the same as `x IS LABELED A`.
    IsLabeled(Sub, Sense, LabelExpr),
    /// IS or IS NOT SOURCE OF or DESTINATION OF a variable.
    IsEnd(Sub, Sense, EdgeEnd, Text),
    /// NOT.
    Not(Sub),
    /// Two or more sides between AND: the first, and the others each with its operator.
    And(Sub, Steps),
    /// The same between OR and XOR.
    Or(Sub, Steps),
}

/// A part of an expression, seen as what it means.
#[cycle(expr)]
#[derive(Drop)]
pub struct Sub {
    expr: Box<Expr>,
}

/// A list of expressions, seen as the list of what they mean.
#[cycle(expr)]
#[derive(Drop)]
pub struct Exprs {
    items: Vec<Expr>,
}

/// A later side of a chain, and the operator before it. Its meaning is `link_of`.
#[cycle(expr)]
#[derive(Drop)]
pub struct Step {
    pub operator: Operator,
    pub operand: Expr,
}

/// The later sides of a chain, seen as the list of what they mean.
#[cycle(expr)]
#[derive(Drop)]
pub struct Steps {
    items: Vec<Step>,
}

impl Model for Sub {
    ghost use Rattle.gql_ast.specs.Tree.{Tree};

    ghost Value = { Tree };

    ghost use Rattle.gql_ast.specs.Machinery.TreeCode.{coded_tree};

    ghost coded = { coded_tree };

    ghost use Rattle.std.specs.Prelude.{◌≡◌, [], ◌∷◌, ◌++◌, map, length, IfOk, OnOk, OnErr, ◌==◌};
    ghost use Rattle.gql_ast.specs.Meaning.{tree_of, link_of};

    ghost view = { λ a. tree_of a.expr.value };

    ghost use Rattle.gql_ast.specs.Machinery.Height.{height_of};

    ghost size = { height_of };

    ghost use Rattle.std.proofs.Common.{arith};
    ghost use Rattle.gql_ast.specs.Machinery.Falls.{deep_le-height_of};

    ghost size_decreases = { λ a h. omega (arith, deep_le-height_of a.expr.value) };
}

impl Model for Exprs {
    ghost use Rattle.std.specs.Prelude.{List, map};
    ghost use Rattle.gql_ast.specs.Tree.{Tree};

    ghost Value = { List Tree };

    ghost use Rattle.std.specs.Coded.{coded_list};
    ghost use Rattle.gql_ast.specs.Machinery.TreeCode.{coded_tree};

    ghost coded = { coded_list coded_tree };

    ghost use Rattle.std.specs.Prelude.{◌≡◌, [], ◌∷◌, ◌++◌, map, length, IfOk, OnOk, OnErr, ◌==◌};
    ghost use Rattle.gql_ast.specs.Meaning.{tree_of, link_of};

    ghost view = { λ a. map tree_of a.items.items };

    ghost use Rattle.gql_ast.specs.Machinery.Height.{highest};

    ghost size = { highest };

    ghost use Rattle.std.proofs.Common.{arith};
    ghost use Rattle.gql_ast.specs.Machinery.Falls.{most_le-highest};

    ghost size_decreases = { λ a h. omega (arith, most_le-highest a.items.items) };
}

impl Model for Steps {
    ghost use Rattle.std.specs.Prelude.{List, map};
    ghost use Rattle.gql_ast.specs.Tree.{Link};

    ghost Value = { List Link };

    ghost use Rattle.std.specs.Coded.{coded_list};
    ghost use Rattle.gql_ast.specs.Machinery.TreeCode.{coded_link};

    ghost coded = { coded_list coded_link };

    ghost use Rattle.gql_ast.specs.Meaning.{link_of};

    ghost view = { λ a. map link_of a.items.items };

    ghost use Rattle.gql_ast.specs.Machinery.Height.{highest_link};

    ghost size = { highest_link };

    ghost use Rattle.std.proofs.Common.{arith};
    ghost use Rattle.gql_ast.specs.Machinery.Falls.{most_le-highest_link};

    ghost size_decreases = { λ a h. omega (arith, most_le-highest_link a.items.items) };
}

impl Sub {
    pub fn new(alloc: Global, expr: Expr) -> Result<Sub, OutOfMemory>
        ensures { IfOk result (λ sub. sub ≡ tree_of expr) }
    {
        Ok(Sub {
            expr: Box::new(alloc, expr)?,
        })
    }

    pub fn expr(&self) -> &Expr
        ensures { tree_of result.now ≡ self.now }
    {
        &self.expr
    }
}

impl Exprs {
    pub fn new(alloc: Global) -> Exprs
        ensures { result ≡ [] }
    {
        Exprs {
            items: Vec::new(alloc),
        }
    }

    pub fn as_slice(&self) -> &[Expr]
        ensures { map tree_of result.now ≡ self.now }
    {
        self.items.as_slice()
    }

    pub fn push(&mut self, expr: Expr) -> Result<(), OutOfMemory>
        ensures ok { OnOk result (self.new ≡ self.old ++ tree_of expr ∷ []) }
        ensures err { OnErr result (self.new ≡ self.old) }
    {
        self.items.push(expr)?;
        Ok(())
    }
}

impl Steps {
    pub fn new(alloc: Global) -> Steps
        ensures { result ≡ [] }
    {
        Steps {
            items: Vec::new(alloc),
        }
    }

    pub fn as_slice(&self) -> &[Step]
        ensures { map link_of result.now ≡ self.now }
    {
        self.items.as_slice()
    }

    pub fn len(&self) -> usize
        ensures { result ≡ length self.now }
    {
        self.items.len()
    }

    pub fn is_empty(&self) -> bool
        ensures { result ≡ (length self.now == 0) }
    {
        self.items.is_empty()
    }

    pub fn push(&mut self, step: Step) -> Result<(), OutOfMemory>
        ensures ok { OnOk result (self.new ≡ self.old ++ link_of step ∷ []) }
        ensures err { OnErr result (self.new ≡ self.old) }
    {
        self.items.push(step)?;
        Ok(())
    }
}
