//! The top call: path patterns between commas, and WHERE.

ghost use Rattle.gql_front.specs.Reads.{Reads};
ghost use Rattle.gql_patterns.specs.Machinery.PatternReaders.{graph_pattern_of};

use crate::path_pattern::PathParts;
use gql_ast::{GraphPattern, PathPattern};
use gql_front::ParseResult;
use gql_lexer::Lexeme;
use gql_parts::{list, where_value};
use std::alloc::Global;

/// The longest front of the lexemes that derives a graph pattern, and the lexemes behind it
/// ([`crate::the_longest_pattern_is_read`]). `Syntax` comes exactly where no front derives one; want of memory is the one
/// other answer. A word or a symbol that announces a part is left where the part does not follow. Parentheses use the
/// stack, so a caller refuses lexemes that are too deep before.
#[tactic(auto, unfolding(crate::specs::Machinery::PatternReaders::graph_pattern_of))]
pub fn parse_pattern<'a>(alloc: Global, rest: &'a [Lexeme]) -> ParseResult<'a, GraphPattern>
    ensures { Reads result rest.now graph_pattern_of }
{
    let (paths, rest) = list::<PathParts, PathPattern>(alloc, rest)?;
    let (condition, rest) = where_value(alloc, rest)?;
    Ok((
        GraphPattern {
            different: false,
            paths,
            condition,
        },
        rest,
    ))
}
