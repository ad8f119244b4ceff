//! Path patterns with their names and prefixes, as items.

ghost use Rattle.gql_front.specs.Reads.{Reads};
ghost use Rattle.gql_patterns.specs.Machinery.PatternReaders.{read_path_expr};

use crate::levels::path_expression;
use crate::prefix::prefix;
use gql_ast::{PathExpr, PathPattern, Prefix};
use gql_front::{ParseResult, after_sign, plain_name};
use gql_lexer::Lexeme;
use gql_lexer::symbols::EQUAL;
use gql_parts::{Item, item_or_nothing};
use gql_values3::Text;
use std::alloc::Global;

/// The parts of path patterns, as items.
#[derive(Clone, Copy)]
pub struct PathParts;

/// The name of a path and `=`.
impl Item<PathParts> for Text {
    ghost use Rattle.gql_patterns.specs.Machinery.PatternReaders.{path_name_of};

    ghost reader = { path_name_of };

    #[tactic(auto, unfolding(crate::specs::Machinery::PatternReaders::path_name_of))]
    fn read<'a>(alloc: Global, rest: &'a [Lexeme]) -> ParseResult<'a, Text> {
        let (name, rest) = plain_name(rest)?;
        let rest = after_sign(EQUAL, rest)?;
        Ok((name.try_copy(alloc)?, rest))
    }
}

impl Item<PathParts> for Prefix {
    ghost use Rattle.gql_patterns.specs.Machinery.PrefixReaders.{prefix_of};

    ghost reader = { prefix_of };

    fn read<'a>(alloc: Global, rest: &'a [Lexeme]) -> ParseResult<'a, Prefix> {
        prefix(alloc, rest)
    }
}

/// A path pattern; its name and its prefix may be missing.
impl Item<PathParts> for PathPattern {
    ghost use Rattle.gql_patterns.specs.Machinery.PatternReaders.{path_pattern_of};

    ghost reader = { path_pattern_of };

    #[tactic(auto, unfolding(crate::specs::Machinery::PatternReaders::path_pattern_of, gql_front::specs::Reading::maybe))]
    fn read<'a>(alloc: Global, rest: &'a [Lexeme]) -> ParseResult<'a, PathPattern> {
        let (name, rest) = item_or_nothing::<PathParts, Text>(alloc, rest, rest)?;
        let (prefix, rest) = item_or_nothing::<PathParts, Prefix>(alloc, rest, rest)?;
        let (expr, rest) = path_expr(alloc, rest)?;
        Ok((PathPattern { name, prefix, expr }, rest))
    }
}

/// The path pattern expression at the front.
#[tactic(auto, unfolding(crate::specs::Machinery::PatternReaders::read_path_expr), using(crate::proofs::PatternLaws::path_expr_is))]
fn path_expr<'a>(alloc: Global, rest: &'a [Lexeme]) -> ParseResult<'a, PathExpr>
    ensures { Reads result rest.now read_path_expr }
{
    let (expr, rest) = path_expression(alloc, rest)?;
    Ok((expr, rest))
}
