//! Measures parts of the database: counts on standard output, times on standard error.
//!
//! `gql_bench lexer <file>` cuts the file into pieces and lexemes. `gql_bench parse <file>` reads an expression from each
//! piece. `gql_bench eval <nodes>` evaluates a condition over 1,000,000 rows and a graph of so many nodes. `gql_bench
//! scope <items>` checks a query of so many LET items. `gql_bench table <rows>` applies each clause to so many rows.
//! `gql_bench search <graph> <size> <pattern>` searches a graph for a path pattern, and `gql_bench compare` compares searches
//! with a plain list of matches. `gql_bench small <file>` does small cases of all that prints no times. It promises nothing
//! but to be safe and to end.
#![tactic(auto)]

mod comparing;
mod evaluation;
mod graph_maker;
mod graphs;
mod grids;
mod layers;
mod lexer;
mod long_chain;
mod one_path;
mod parsing;
mod pattern_text;
mod scope;
mod searching;
mod small;
mod tables;

use anyhow::{Result, bail};
use comparing::compare;
use evaluation::evaluate;
use lexer::lexer;
use parsing::parse;
use scope::scope;
use searching::searches;
use small::small;
use std::alloc::Global;
use std::env;
use tables::tables;

fn main(rt: HostRuntime) -> Result<()> {
    let alloc = rt.alloc();
    let words: Vec<String> = env::args(&rt)?.collect(alloc)?;
    match words.as_slice() {
        [_, part] if part.as_str() == "compare" => compare(&rt, alloc),
        [_, part, graph, size, text] if part.as_str() == "search" => {
            searches(&rt, alloc, graph.as_str(), size.as_str(), text.as_str())
        }
        [_, part, word] => measure(&rt, alloc, part.as_str(), word.as_str()),
        _ => bail!("a part is wanted, and its words"),
    }
}

fn measure(rt: &HostRuntime, alloc: Global, part: &str, word: &str) -> Result<()> {
    match part {
        "lexer" => lexer(rt, alloc, word),
        "parse" => parse(rt, alloc, word),
        "eval" => evaluate(rt, alloc, word),
        "scope" => scope(rt, alloc, word),
        "table" => tables(rt, alloc, word),
        "small" => small(rt, alloc, word),
        _ => bail!("no such part"),
    }
}
