//! The chains of path patterns, and what parts in a row are.

ghost use Rattle.std.specs.Prelude.{◌≡◌, IfOk};
ghost use Rattle.gql_front.specs.Reading.{one_or};
ghost use Rattle.gql_ast.specs.PatternMeaning.{pattern_of};
ghost use Rattle.gql_patterns.specs.Machinery.PathReaders.{symbol_of, chain_node, chain_at, row_node};

use gql_ast::{PathExpr, PathList, PathSub};
use gql_lexer::Lexeme;
use gql_lexer::symbols::{BAR, MULTISET_BAR};
use gql_values3::OutOfMemory;
use std::alloc::Global;

/// A chain of path patterns.
#[derive(Clone, Copy, Debug, PartialEq, Eq)]
pub enum PathChain {
    /// Sides between `|`.
    Union,
    /// Sides between `|+|`.
    MultisetUnion,
}

/// The symbol between the sides of a chain.
pub fn symbol_of(chain: PathChain) -> u32
    ensures { result ≡ symbol_of chain }
{
    match chain {
        PathChain::Union => BAR,
        PathChain::MultisetUnion => MULTISET_BAR,
    }
}

/// The chain whose symbol is at the front; `|` where none is, since then no side follows.
#[tactic(auto, unfolding(crate::specs::Machinery::PathReaders::chain_at))]
pub fn chain_at(rest: &[Lexeme]) -> PathChain
    ensures { result ≡ chain_at rest.now }
{
    match rest {
        [Lexeme::Sign(MULTISET_BAR), ..] => PathChain::MultisetUnion,
        _ => PathChain::Union,
    }
}

/// The only side of a chain, or the chain.
pub fn chain_or_side(
    alloc: Global,
    chain: PathChain,
    first: PathExpr,
    others: PathList,
) -> Result<PathExpr, OutOfMemory>
    ensures { IfOk result (λ x. pattern_of x ≡ one_or (chain_node chain) (pattern_of first) others) }
{
    if others.is_empty() {
        return Ok(first);
    }
    let first = PathSub::new(alloc, first)?;
    Ok(match chain {
        PathChain::Union => PathExpr::Union(first, others),
        PathChain::MultisetUnion => PathExpr::MultisetUnion(first, others),
    })
}

/// The only part, or the parts in a row.
pub fn row_or_part(
    alloc: Global,
    first: PathExpr,
    others: PathList,
) -> Result<PathExpr, OutOfMemory>
    ensures { IfOk result (λ x. pattern_of x ≡ one_or row_node (pattern_of first) others) }
{
    if others.is_empty() {
        return Ok(first);
    }
    Ok(PathExpr::Concat(PathSub::new(alloc, first)?, others))
}
