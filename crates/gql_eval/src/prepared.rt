//! An expression that is prepared once and then evaluated in many rows.

ghost use Rattle.std.specs.Prelude.{◌≡◌, [], ◌++◌, map, IfOk};
ghost use Rattle.gql_values3.specs.Meaning.{datum_of};
ghost use Rattle.gql_ast.specs.Meaning.{tree_of};
ghost use Rattle.gql_ast.specs.Scope.{row_scope};
ghost use Rattle.gql_ast.specs.TruthValues.{truth_in};
ghost use Rattle.gql_ast.specs.Evaluation.{value_of, pattern_truth};
ghost use Rattle.gql_eval.specs.Bound.{match_scope};
ghost use Rattle.gql_eval.specs.CowValue.{cow_datum};
ghost use Rattle.gql_eval.specs.Gives.{Gives};
ghost use Rattle.gql_eval.specs.Machinery.Next.{next};

use crate::compiling::compile;
use crate::cow::CowValue;
use crate::error::EvalError;
use crate::instruction::Instruction;
use crate::running::value_of_program;
use crate::scope::Scope;
use crate::truths::truth_of_value;
use gql_ast::Expr;
use gql_values3::{Binding, ColumnKind, OutOfMemory, Params, Text, Truth, Value, View};
use std::alloc::Global;
use std::marker::Model;

/// An expression prepared for the rows under some columns, for the names of a match behind them, and for parameters. It is seen as
/// these four.
#[derive(Drop)]
pub struct Prepared<'a> {
    columns: &'a [(Text, ColumnKind)],
    names: &'a [Text],
    params: &'a Params,
    expr: &'a Expr,
    program: Vec<Instruction<'a>>,
}

impl<'a> Model for Prepared<'a> {
    ghost use Rattle.gql_ast.specs.Meaning.{tree_of};
    ghost use Rattle.gql_eval.specs.Preparation.{Preparation};

    ghost Value = { Preparation };

    ghost use Rattle.std.specs.Coded.{codes};
    ghost use Rattle.gql_values3.specs.Datum.{coded_datum};
    ghost use Rattle.gql_ast.specs.Machinery.TreeCode.{coded_tree};

    ghost coded = { Prim.hlevel (codes, coded_datum, coded_tree) };

    ghost view = { λ p. record { columns = p.columns.now; names = p.names.now; params = p.params.now; tree = tree_of p.expr.now } };

    ghost use Rattle.std.specs.Prelude.{◌≡◌};
    ghost use Rattle.gql_eval.specs.Machinery.Compiled.{compiled};
    ghost use Rattle.gql_eval.specs.Machinery.InstructionMeaning.{program_of};

    ghost invariant = { λ p. program_of p.program.items ≡ compiled p.columns.now p.names.now p.params.now (tree_of p.expr.now) };
}

impl<'a> Prepared<'a> {
    /// Prepares the expression for rows alone. Columns that it does not name don't matter.
    pub fn new(
        alloc: Global,
        columns: &'a [(Text, ColumnKind)],
        params: &'a Params,
        expr: &'a Expr,
    ) -> Result<Prepared<'a>, OutOfMemory>
        ensures { IfOk result (λ p. p ≡ record { columns = columns.now; names = []; params = params.now; tree = tree_of expr.now }) }
    {
        Prepared::for_match(alloc, columns, &[], params, expr)
    }

    /// Prepares the expression for matches that have these names behind the columns of the row.
    #[tactic(auto, using(crate::proofs::ScopeLemmas::append_none))]
    pub fn for_match(
        alloc: Global,
        columns: &'a [(Text, ColumnKind)],
        names: &'a [Text],
        params: &'a Params,
        expr: &'a Expr,
    ) -> Result<Prepared<'a>, OutOfMemory>
        ensures { IfOk result (λ p. p ≡ record { columns = columns.now; names = names.now; params = params.now; tree = tree_of expr.now }) }
    {
        let mut program = Vec::new(alloc);
        compile(columns, names, params, expr, &mut program)?;
        Ok(Prepared {
            columns,
            names,
            params,
            expr,
            program,
        })
    }

    /// The value over a graph and a row, or its first fault. Values past the last column and columns past the last
    /// value are not seen. What is lent stands in the graph, in the row, or in what was prepared.
    #[tactic(auto, using(crate::proofs::ScopeLemmas::append_none, crate::proofs::ScopeLemmas::no_bindings))]
    pub fn value<'r, V: View>(
        &'r self,
        alloc: Global,
        view: &'r V,
        row: &'r [Value],
    ) -> Result<CowValue<'r>, EvalError>
        ensures { Gives cow_datum result (value_of (V.graph view.now) self.now.params (row_scope self.now.columns (map datum_of row.now)) self.now.tree) }
    {
        self.value_beside(alloc, view, row, &[])
    }

    /// The same where the names of the match stand for these, in their order; a name without one is not seen.
    #[tactic(auto, unfolding(crate::specs::Machinery::ScopeMeaning::scope_of, crate::specs::Machinery::ScopeMeaning::rest_of))]
    pub fn value_beside<'r, V: View>(
        &'r self,
        alloc: Global,
        view: &'r V,
        row: &'r [Value],
        bound: &'r [Binding],
    ) -> Result<CowValue<'r>, EvalError>
        ensures { Gives cow_datum result (value_of (V.graph view.now) self.now.params (row_scope self.now.columns (map datum_of row.now) ++ match_scope self.now.names bound.now) self.now.tree) }
    {
        let scope = Scope {
            front: &[],
            columns: self.columns,
            row,
            names: self.names,
            bound,
        };
        let program = self.program.as_slice();
        value_of_program(alloc, view, &scope, self.params, self.expr, program)
    }

    /// The truth of the expression as a predicate inside a path pattern, where the names of the match stand for these.
    /// Every fault is Unknown.
    pub fn holds_beside<V: View>(
        &self,
        alloc: Global,
        view: &V,
        row: &[Value],
        bound: &[Binding],
    ) -> Result<Truth, OutOfMemory>
        ensures { IfOk result (λ truth. truth ≡ pattern_truth (V.graph view.now) self.now.params (row_scope self.now.columns (map datum_of row.now) ++ match_scope self.now.names bound.now) self.now.tree) }
    {
        match self.truth_beside(alloc, view, row, bound) {
            Ok(truth) => Ok(truth),
            Err(EvalError::Fault(_)) => Ok(Truth::Unknown),
            Err(EvalError::OutOfMemory) => Err(OutOfMemory),
        }
    }

    /// The truth of the expression as a condition, or its first fault.
    fn truth_beside<V: View>(
        &self,
        alloc: Global,
        view: &V,
        row: &[Value],
        bound: &[Binding],
    ) -> Result<Truth, EvalError>
        ensures { Gives (λ t. t) result (next (value_of (V.graph view.now) self.now.params (row_scope self.now.columns (map datum_of row.now) ++ match_scope self.now.names bound.now) self.now.tree) truth_in) }
    {
        let value = self.value_beside(alloc, view, row, bound)?;
        Ok(truth_of_value(value.value())?)
    }
}
