//! Path patterns: nodes and edges, in a row, repeated, optional or as alternatives.

ghost use Rattle.std.specs.Prelude.{◌≡◌, [], ◌∷◌, ◌++◌, map, length, IfOk, OnOk, OnErr, ◌==◌};
ghost use Rattle.gql_ast.specs.PatternMeaning.{pattern_of};

use crate::expr::Expr;
use crate::filler::Filler;
use crate::mode::Mode;
use gql_values3::{OutOfMemory, Text};
use std::alloc::Global;
use std::marker::Model;

/// The direction of an edge of a pattern. The short form of an edge has an empty filler.
#[derive(Clone, Copy, Debug, PartialEq, Eq)]
pub enum Direction {
    /// `<-[ ]-` or `<-`
    Left,
    /// `~[ ]~` or `~`
    Undirected,
    /// `-[ ]->` or `->`
    Right,
    /// `<~[ ]~` or `<~`
    LeftOrUndirected,
    /// `~[ ]~>` or `~>`
    UndirectedOrRight,
    /// `<-[ ]->` or `<->`
    LeftOrRight,
    /// `-[ ]-` or `-`
    Any,
}

/// How often a part of a pattern stands. Numbers are kept by their digits.
#[derive(Drop)]
pub enum Quantifier {
    /// `*`
    Star,
    /// `+`
    Plus,
    /// `{n}`
    Exactly(Text),
    /// `{m,n}`, where each number may be missing.
    Between(Option<Text>, Option<Text>),
}

/// A path pattern without its name and prefix. Its meaning is `pattern_of`.
#[cycle(pattern)]
#[derive(Drop)]
pub enum PathExpr {
    Node(Filler),
    Edge(Direction, Filler),
    /// A part in parentheses, with its mode and what must hold, if they are there.
    Paren(Option<Mode>, PathSub, Option<Expr>),
    /// A part and how often it stands.
    Repeat(PathSub, Quantifier),
    /// A part with `?` behind it.
    Optional(PathSub),
    /// Two or more parts in a row: the first, and the others in order.
    Concat(PathSub, PathList),
    /// The same between `|`.
    Union(PathSub, PathList),
    /// The same between `|+|`.
    MultisetUnion(PathSub, PathList),
}

/// A part of a path pattern, seen as what it means.
#[cycle(pattern)]
#[derive(Drop)]
pub struct PathSub {
    expr: Box<PathExpr>,
}

/// A list of path patterns, seen as the list of what they mean.
#[cycle(pattern)]
#[derive(Drop)]
pub struct PathList {
    items: Vec<PathExpr>,
}

impl Model for PathSub {
    ghost use Rattle.gql_ast.specs.Pattern.{Pattern};

    ghost Value = { Pattern };

    ghost use Rattle.gql_ast.specs.Machinery.PatternCode.{coded_pattern};

    ghost coded = { coded_pattern };

    ghost use Rattle.gql_ast.specs.PatternMeaning.{pattern_of};

    ghost view = { λ a. pattern_of a.expr.value };

    ghost use Rattle.gql_ast.specs.Machinery.PatternHeight.{pattern_height_of};

    ghost size = { pattern_height_of };

    ghost use Rattle.std.proofs.Common.{arith};
    ghost use Rattle.gql_ast.specs.Machinery.PatternFalls.{deep_le-pattern_height_of};

    ghost size_decreases = { λ a h. omega (arith, deep_le-pattern_height_of a.expr.value) };
}

impl Model for PathList {
    ghost use Rattle.std.specs.Prelude.{List, map};
    ghost use Rattle.gql_ast.specs.Pattern.{Pattern};

    ghost Value = { List Pattern };

    ghost use Rattle.std.specs.Coded.{coded_list};
    ghost use Rattle.gql_ast.specs.Machinery.PatternCode.{coded_pattern};

    ghost coded = { coded_list coded_pattern };

    ghost use Rattle.gql_ast.specs.PatternMeaning.{pattern_of};

    ghost view = { λ a. map pattern_of a.items.items };

    ghost use Rattle.gql_ast.specs.Machinery.PatternHeight.{highest_pattern};

    ghost size = { highest_pattern };

    ghost use Rattle.std.proofs.Common.{arith};
    ghost use Rattle.gql_ast.specs.Machinery.PatternFalls.{most_le-highest_pattern};

    ghost size_decreases = { λ a h. omega (arith, most_le-highest_pattern a.items.items) };
}

impl PathSub {
    pub fn new(alloc: Global, expr: PathExpr) -> Result<PathSub, OutOfMemory>
        ensures { IfOk result (λ sub. sub ≡ pattern_of expr) }
    {
        Ok(PathSub {
            expr: Box::new(alloc, expr)?,
        })
    }

    pub fn expr(&self) -> &PathExpr
        ensures { pattern_of result.now ≡ self.now }
    {
        &self.expr
    }
}

impl PathList {
    pub fn new(alloc: Global) -> PathList
        ensures { result ≡ [] }
    {
        PathList {
            items: Vec::new(alloc),
        }
    }

    pub fn as_slice(&self) -> &[PathExpr]
        ensures { map pattern_of result.now ≡ self.now }
    {
        self.items.as_slice()
    }

    pub fn is_empty(&self) -> bool
        ensures { result ≡ (length self.now == 0) }
    {
        self.items.is_empty()
    }

    pub fn push(&mut self, expr: PathExpr) -> Result<(), OutOfMemory>
        ensures ok { OnOk result (self.new ≡ self.old ++ pattern_of expr ∷ []) }
        ensures err { OnErr result (self.new ≡ self.old) }
    {
        self.items.push(expr)?;
        Ok(())
    }
}
