//! Cuts a file into pieces and lexemes.

use anyhow::{Context, Result, bail};
use gql_lexer::{LexFault, Pieces, lexemes, pieces};
use std::alloc::Global;
use std::fs;
use std::rt::{Clock, Files};
use std::time::Instant;

/// Cuts the file into pieces and each piece into lexemes, and says how many there are.
pub fn lexer(
    rt: &(impl Files + Clock + Print + Eprint + AllocGlobal),
    alloc: Global,
    name: &str,
) -> Result<()> {
    let bytes = fs::read(rt, name).context("reading the file")?;
    let begun = Instant::now(rt)?;
    let Ok(all) = pieces(alloc, bytes.as_slice()) else {
        bail!("no memory for the pieces");
    };
    let cut = begun.elapsed(rt)?.as_millis();
    let counts = count(alloc, &all)?;
    let took = begun.elapsed(rt)?.as_millis();
    println!(rt;
        "pieces {} lexemes {} bad {}",
        all.len(),
        counts.lexemes,
        counts.bad
    )?;
    eprintln!(rt;
        "{cut} ms for the pieces, {took} ms for {} bytes",
        bytes.len()
    )?;
    Ok(())
}

/// How many lexemes the good pieces have, and how many pieces are bad.
#[derive(Clone, Copy)]
struct Counts {
    lexemes: usize,
    bad: usize,
}

fn count(alloc: Global, all: &Pieces) -> Result<Counts> {
    let mut counts = Counts { lexemes: 0, bad: 0 };
    for piece in all.as_slice() {
        if piece.bytes.len() >= 1 << 32 {
            bail!("a piece is too long");
        }
        match lexemes(alloc, piece.bytes.as_slice()) {
            Ok(found) => counts.lexemes = counts.lexemes.saturating_add(found.len()),
            Err(LexFault::Bad) => counts.bad = counts.bad.saturating_add(1),
            Err(LexFault::OutOfMemory) => bail!("no memory for the lexemes"),
        }
    }
    Ok(counts)
}
