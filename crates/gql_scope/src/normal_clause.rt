//! A clause with the normal form of its pattern, which is made once for all checks.

ghost use Rattle.std.specs.Prelude.{◌≡◌, option_map, IfOk};
ghost use Rattle.std.specs.Option.{option_copied};
ghost use Rattle.gql_norm.specs.NormalData.{pattern_data};
ghost use Rattle.gql_scope.specs.Machinery.Forms.{form_of};

use gql_ast::Clause;
use gql_norm::{NormalPattern, normal};
use gql_values3::OutOfMemory;
use std::alloc::Global;
use std::marker::Model;

/// A clause, seen as that; of a MATCH the normal form of its pattern stands beside it.
#[derive(Drop)]
pub struct NormalClause<'a> {
    clause: &'a Clause,
    pattern: Option<NormalPattern>,
}

impl<'a> Model for NormalClause<'a> {
    ghost use Rattle.gql_ast.specs.declared.clause.Clause.{Clause};

    ghost Value = { Clause };

    ghost use Rattle.std.specs.Coded.{codes};
    ghost use Rattle.gql_values3.specs.Datum.{coded_datum};
    ghost use Rattle.gql_ast.specs.Machinery.LabelCode.{coded_label};
    ghost use Rattle.gql_ast.specs.Machinery.PatternCode.{coded_pattern};
    ghost use Rattle.gql_ast.specs.Machinery.TreeCode.{coded_link, coded_tree};

    ghost coded = { Prim.hlevel (codes, coded_datum, coded_label, coded_tree, coded_link, coded_pattern) };

    ghost view = { λ c. c.clause.now };

    ghost use Rattle.std.specs.Prelude.{◌≡◌, option_map};
    ghost use Rattle.gql_norm.specs.NormalData.{pattern_data};
    ghost use Rattle.gql_scope.specs.Machinery.Forms.{form_of};

    ghost invariant = { λ c. option_map pattern_data c.pattern ≡ form_of c.clause.now };
}

impl<'a> NormalClause<'a> {
    /// The clause with the normal form of its pattern. A number beyond 32 bits in it is answered as want of memory.
    pub fn new(alloc: Global, clause: &'a Clause) -> Result<NormalClause<'a>, OutOfMemory>
        ensures { IfOk result (λ made. made ≡ clause.now) }
    {
        let pattern = form(alloc, clause)?;
        Ok(NormalClause { clause, pattern })
    }

    /// The clause as it was written.
    pub fn clause(&self) -> &Clause
        ensures { result.now ≡ self.now }
    {
        self.clause
    }

    /// The normal form of its pattern, if it is a MATCH.
    pub fn pattern(&self) -> Option<&NormalPattern>
        ensures { option_map pattern_data (option_copied result) ≡ form_of self.now }
    {
        self.pattern.as_ref()
    }
}

fn form(alloc: Global, clause: &Clause) -> Result<Option<NormalPattern>, OutOfMemory>
    ensures { IfOk result (λ form. option_map pattern_data form ≡ form_of clause.now) }
{
    match clause {
        Clause::Match(m) => Ok(Some(normal(alloc, &m.pattern)?)),
        _ => Ok(None),
    }
}
