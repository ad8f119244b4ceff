//! A pattern's text, read.

use anyhow::{Result, bail};
use gql_ast::GraphPattern;
use gql_exprs::too_deep;
use gql_lexer::{Lexeme, lexemes};
use gql_norm::{NormalPattern, normal};
use gql_patterns::parse_pattern;
use std::alloc::Global;

/// The normal form of a graph pattern that is given as text.
pub fn pattern_of(alloc: Global, text: &str) -> Result<NormalPattern> {
    if text.len() > 1000 {
        bail!("a long text");
    }
    let Ok(read) = lexemes(alloc, text.as_bytes()) else {
        bail!("a bad text");
    };
    let tree = tree_of(alloc, read.as_slice())?;
    match normal(alloc, &tree) {
        Ok(pattern) => Ok(pattern),
        Err(_) => bail!("no memory for the normal form"),
    }
}

/// The pattern that all of the lexemes are.
fn tree_of(alloc: Global, read: &[Lexeme]) -> Result<GraphPattern> {
    if too_deep(read) {
        bail!("a deep pattern");
    }
    let Ok((pattern, rest)) = parse_pattern(alloc, read) else {
        bail!("no pattern");
    };
    if !rest.is_empty() {
        bail!("a pattern, and more behind it");
    }
    Ok(pattern)
}
