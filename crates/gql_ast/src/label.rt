//! Label expressions, and the lists of their parts.

ghost use Rattle.std.specs.Prelude.{◌≡◌, [], ◌∷◌, ◌++◌, map, length, IfOk, OnOk, OnErr, ◌==◌};
ghost use Rattle.gql_ast.specs.LabelMeaning.{label_of};

use gql_values3::{OutOfMemory, Text};
use std::alloc::Global;
use std::marker::Model;

/// An expression over the labels of an element, as in `x IS LABELED A & !B`. Its meaning is `label_of`.
#[cycle(label)]
#[derive(Drop)]
pub enum LabelExpr {
    /// A label, by its name.
    Name(Text),
    /// `%`: any label.
    Wildcard,
    /// A label expression in parentheses.
    Paren(LabelSub),
    /// `!`.
    Not(LabelSub),
    /// Two or more sides between `&`: the first, and the others in order.
    And(LabelSub, LabelList),
    /// Two or more sides between `|`: the first, and the others in order.
    Or(LabelSub, LabelList),
}

/// A part of a label expression, seen as what it means.
#[cycle(label)]
#[derive(Drop)]
pub struct LabelSub {
    expr: Box<LabelExpr>,
}

/// A list of label expressions, seen as the list of what they mean.
#[cycle(label)]
#[derive(Drop)]
pub struct LabelList {
    items: Vec<LabelExpr>,
}

impl Model for LabelSub {
    ghost use Rattle.gql_ast.specs.Label.{Label};

    ghost Value = { Label };

    ghost use Rattle.gql_ast.specs.Machinery.LabelCode.{coded_label};

    ghost coded = { coded_label };

    ghost use Rattle.gql_ast.specs.LabelMeaning.{label_of};

    ghost view = { λ a. label_of a.expr.value };

    ghost use Rattle.gql_ast.specs.Machinery.LabelHeight.{label_height_of};

    ghost size = { label_height_of };

    ghost use Rattle.std.proofs.Common.{arith};
    ghost use Rattle.gql_ast.specs.Machinery.LabelFalls.{deep_le-label_height_of};

    ghost size_decreases = { λ a h. omega (arith, deep_le-label_height_of a.expr.value) };
}

impl Model for LabelList {
    ghost use Rattle.std.specs.Prelude.{List, map};
    ghost use Rattle.gql_ast.specs.Label.{Label};

    ghost Value = { List Label };

    ghost use Rattle.std.specs.Coded.{coded_list};
    ghost use Rattle.gql_ast.specs.Machinery.LabelCode.{coded_label};

    ghost coded = { coded_list coded_label };

    ghost use Rattle.gql_ast.specs.LabelMeaning.{label_of};

    ghost view = { λ a. map label_of a.items.items };

    ghost use Rattle.gql_ast.specs.Machinery.LabelHeight.{highest_label};

    ghost size = { highest_label };

    ghost use Rattle.std.proofs.Common.{arith};
    ghost use Rattle.gql_ast.specs.Machinery.LabelFalls.{most_le-highest_label};

    ghost size_decreases = { λ a h. omega (arith, most_le-highest_label a.items.items) };
}

impl LabelSub {
    pub fn new(alloc: Global, expr: LabelExpr) -> Result<LabelSub, OutOfMemory>
        ensures { IfOk result (λ sub. sub ≡ label_of expr) }
    {
        Ok(LabelSub {
            expr: Box::new(alloc, expr)?,
        })
    }

    pub fn expr(&self) -> &LabelExpr
        ensures { label_of result.now ≡ self.now }
    {
        &self.expr
    }

    /// An equal part.
    #[cycle(label_copy)]
    pub fn try_copy(&self, alloc: Global) -> Result<LabelSub, OutOfMemory>
        ensures { IfOk result (λ copy. copy ≡ self.now) }
    {
        LabelSub::new(alloc, self.expr.try_copy(alloc)?)
    }
}

impl LabelList {
    pub fn new(alloc: Global) -> LabelList
        ensures { result ≡ [] }
    {
        LabelList {
            items: Vec::new(alloc),
        }
    }

    pub fn as_slice(&self) -> &[LabelExpr]
        ensures { map label_of result.now ≡ self.now }
    {
        self.items.as_slice()
    }

    pub fn is_empty(&self) -> bool
        ensures { result ≡ (length self.now == 0) }
    {
        self.items.is_empty()
    }

    pub fn push(&mut self, expr: LabelExpr) -> Result<(), OutOfMemory>
        ensures ok { OnOk result (self.new ≡ self.old ++ label_of expr ∷ []) }
        ensures err { OnErr result (self.new ≡ self.old) }
    {
        self.items.push(expr)?;
        Ok(())
    }

    /// An equal list.
    #[cycle(label_copy)]
    pub fn try_copy(&self, alloc: Global) -> Result<LabelList, OutOfMemory>
        ensures { IfOk result (λ copy. copy ≡ self.now) }
    {
        let mut items = Vec::new(alloc);
        for item in &self.items {
            items.push(item.try_copy(alloc)?)?;
        }
        Ok(LabelList { items })
    }
}

impl LabelExpr {
    /// A label expression that means the same.
    #[cycle(label_copy)]
    pub fn try_copy(&self, alloc: Global) -> Result<LabelExpr, OutOfMemory>
        ensures { IfOk result (λ copy. label_of copy ≡ label_of self.now) }
    {
        match self {
            LabelExpr::Name(name) => Ok(LabelExpr::Name(name.try_copy(alloc)?)),
            LabelExpr::Wildcard => Ok(LabelExpr::Wildcard),
            LabelExpr::Paren(sub) => Ok(LabelExpr::Paren(sub.try_copy(alloc)?)),
            LabelExpr::Not(sub) => Ok(LabelExpr::Not(sub.try_copy(alloc)?)),
            LabelExpr::And(first, rest) => {
                Ok(LabelExpr::And(first.try_copy(alloc)?, rest.try_copy(alloc)?))
            }
            LabelExpr::Or(first, rest) => {
                Ok(LabelExpr::Or(first.try_copy(alloc)?, rest.try_copy(alloc)?))
            }
        }
    }
}
