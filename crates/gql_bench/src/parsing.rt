//! Measures how fast expressions are read from lexemes.

use anyhow::{Context, Result, bail};
use gql_ast::ParseFault;
use gql_exprs::{parse_expr, too_deep};
use gql_lexer::{LexFault, Lexemes, Pieces, lexemes, pieces};
use std::alloc::Global;
use std::fs;
use std::rt::{Clock, Files};
use std::time::Instant;

/// Reads an expression from the front of each piece of the file, and says how many there are, and how many lexemes they
/// have. Cutting into lexemes is not measured; letting the trees go is.
pub fn parse(
    rt: &(impl Files + Clock + Print + Eprint + AllocGlobal),
    alloc: Global,
    name: &str,
) -> Result<()> {
    let bytes = fs::read(rt, name).context("reading the file")?;
    let Ok(all) = pieces(alloc, bytes.as_slice()) else {
        bail!("no memory for the pieces");
    };
    let read = all_lexemes(alloc, &all)?;
    let begun = Instant::now(rt)?;
    let counts = parse_all(alloc, read.as_slice())?;
    let took = begun.elapsed(rt)?.as_millis();
    println!(rt;
        "expressions {} lexemes {} refused {}",
        counts.expressions, counts.lexemes, counts.refused
    )?;
    eprintln!(rt; "{took} ms for {} lexemes", counts.lexemes)?;
    Ok(())
}

/// The lexemes of each piece.
fn all_lexemes(alloc: Global, all: &Pieces) -> Result<Vec<Lexemes>> {
    let mut read = Vec::new(alloc);
    for piece in all.as_slice() {
        if piece.bytes.len() >= 1 << 32 {
            bail!("a piece is too long");
        }
        match lexemes(alloc, piece.bytes.as_slice()) {
            Ok(found) => read.push(found)?,
            Err(LexFault::Bad) => bail!("a piece is bad"),
            Err(LexFault::OutOfMemory) => bail!("no memory for the lexemes"),
        }
    }
    Ok(read)
}

/// How many expressions were read, how many lexemes they have, and how many pieces begin with none.
#[derive(Clone, Copy)]
struct Counts {
    expressions: usize,
    lexemes: usize,
    refused: usize,
}

fn parse_all(alloc: Global, read: &[Lexemes]) -> Result<Counts> {
    let mut counts = Counts {
        expressions: 0,
        lexemes: 0,
        refused: 0,
    };
    for lexemes in read {
        let lexemes = lexemes.as_slice();
        if lexemes.len() >= 1 << 32 || too_deep(lexemes) {
            bail!("a piece is too long or too deep");
        }
        match parse_expr(alloc, lexemes, 0) {
            Ok((_, place)) => {
                counts.expressions = counts.expressions.saturating_add(1);
                counts.lexemes = counts.lexemes.saturating_add(place as usize);
            }
            Err(ParseFault::OutOfMemory) => bail!("no memory for an expression"),
            Err(_) => counts.refused = counts.refused.saturating_add(1),
        }
    }
    Ok(counts)
}
