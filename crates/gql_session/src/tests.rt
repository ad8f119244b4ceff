//! What needs a port that fails, kept records or much memory; all else is proved, or shown by session cases.
ghost use Rattle.std.specs.Prelude.{◌<◌};

mod no_matcher;

use crate::status::code;
use crate::top_call::run;
use gql_graph::Graph;
use gql_ports::{MemKeeper, MemSink, MemSource, Record, Records};
use gql_starts::Matcher;
use gql_values3::{Bytes, Numbers, Text};
use no_matcher::NoMatcher;
use std::alloc::Global;
use std::process::Abort;
use std::test::Fail;

/// A run over the ports in memory, and what it must end with.
#[derive(Clone, Copy)]
struct Case<'a> {
    shows: &'a str,
    words: &'a str,
    text: &'a str,
    /// The name of the store that the records are kept in, or none in memory.
    store: Option<&'a str>,
    /// The records that are kept: a space between two of them, a colon between key and value, and both in hex.
    records: &'a str,
    fails: Fails,
    status: u8,
    written: &'a str,
}

/// The number of the call that fails, from 1; 0 where none does.
#[derive(Clone, Copy)]
struct Fails {
    source: u64,
    sink: u64,
    keeper: u64,
}

const NONE: Fails = Fails {
    source: 0,
    sink: 0,
    keeper: 0,
};

const WORDS: &str = "gql run s";

const OVER_K: &str = "gql run s --store k";

const QUERY: &str = "FOR x IN [] RETURN x;";

/// The version of the records.
const VERSION: &str = "00:01";

/// The graph home with the next numbers 3 and 1, a node 1 labelled A, and a node 2 without labels, but no version.
const GRAPH: &str = "020000000000000004686f6d65:000000000300000001 \
    030000000000000004686f6d6500000001:00000000000000010000000000000001410000000000000000 \
    030000000000000004686f6d6500000002:00000000000000000000000000000000";

/// The version and that graph.
const TWO_NODES: &str = "00:01 020000000000000004686f6d65:000000000300000001 \
    030000000000000004686f6d6500000001:00000000000000010000000000000001410000000000000000 \
    030000000000000004686f6d6500000002:00000000000000000000000000000000";

/// A graph whose node numbers are used up.
const FULL: &str = "00:01 020000000000000004686f6d65:00ffffffff00000001";

fn digit(hex: u8) -> u8
    ensures { result < 16 }
{
    match hex {
        b'0'..=b'9' => hex - b'0',
        b'a'..=b'f' => hex - b'a' + 10,
        _ => 0,
    }
}

fn bytes_of(alloc: Global, hex: &str) -> Result<Bytes, Fail> {
    let mut bytes = Bytes::new(alloc);
    for pair in hex.as_bytes().chunks(2) {
        if let [high, low] = pair {
            bytes.push(digit(*high) * 16 + digit(*low))?;
        }
    }
    Ok(bytes)
}

fn records_of(alloc: Global, kept: &str) -> Result<Records, Fail> {
    let mut records = Records::new(alloc);
    for record in kept.split(' ') {
        let mut parts = record.split(':');
        if let (Some(key), Some(value)) = (parts.next(), parts.next()) {
            let key = bytes_of(alloc, key)?;
            let value = bytes_of(alloc, value)?;
            records.put(Record { key, value })?;
        }
    }
    Ok(records)
}

fn numbers_of(alloc: Global, number: u64) -> Result<Numbers, Fail> {
    let mut numbers = Numbers::new(alloc);
    numbers.push(number)?;
    Ok(numbers)
}

/// The words, which stand apart by one space each.
fn words_of(alloc: Global, words: &str) -> Result<Vec<String>, Fail> {
    let mut all = Vec::new(alloc);
    for word in words.split(' ') {
        all.push(String::from_str(alloc, word)?)?;
    }
    Ok(all)
}

fn source_of(alloc: Global, bytes: Bytes, fails: u64) -> Result<MemSource, Fail> {
    Ok(MemSource {
        name: Text::from_str(alloc, "s")?,
        ready: false,
        bytes,
        piece: 7,
        fails: numbers_of(alloc, fails)?,
        calls: 0,
        faults: 0,
        taken: 0,
    })
}

fn sink_of(alloc: Global, fails: u64) -> Result<MemSink, Fail> {
    Ok(MemSink {
        bytes: Bytes::new(alloc),
        fails: numbers_of(alloc, fails)?,
        calls: 0,
        faults: 0,
    })
}

fn name_of(alloc: Global, store: Option<&str>) -> Result<Option<Text>, Fail> {
    match store {
        Some(store) => Ok(Some(Text::from_str(alloc, store)?)),
        None => Ok(None),
    }
}

fn keeper_of(
    alloc: Global,
    name: Option<Text>,
    records: Records,
    fails: u64,
) -> Result<MemKeeper, Fail> {
    Ok(MemKeeper {
        name,
        records,
        fails: numbers_of(alloc, fails)?,
        calls: 0,
        faults: 0,
    })
}

/// Runs the case, and tells the exit status and what was written.
fn outcome_of<M: Matcher<Graph>>(
    alloc: Global,
    matcher: &M,
    case: &Case<'_>,
) -> Result<(u8, Bytes), Fail> {
    let text = Bytes::from_vec(Vec::from_slice(alloc, case.text.as_bytes())?);
    let words = words_of(alloc, case.words)?;
    let mut source = source_of(alloc, text, case.fails.source)?;
    let mut sink = sink_of(alloc, case.fails.sink)?;
    let mut keeper = kept_by(alloc, case)?;
    let status = run(alloc, matcher, &words, &mut source, &mut sink, &mut keeper);
    Ok((code(&status), sink.bytes))
}

/// The keeper of the case's records.
fn kept_by(alloc: Global, case: &Case<'_>) -> Result<MemKeeper, Fail> {
    let records = records_of(alloc, case.records)?;
    let name = name_of(alloc, case.store)?;
    keeper_of(alloc, name, records, case.fails.keeper)
}

fn check<M: Matcher<Graph>>(
    rt: &impl Abort,
    alloc: Global,
    matcher: &M,
    case: &Case<'_>,
) -> Result<(), Fail> {
    let (status, written) = outcome_of(alloc, matcher, case)?;
    assert_eq!(rt; status, case.status, "{}", case.shows);
    assert_eq!(rt;
        written.as_slice(),
        case.written.as_bytes(),
        "{}",
        case.shows
    );
    Ok(())
}

/// A session over the two nodes, in which nothing fails.
const fn plain<'a>(shows: &'a str, text: &'a str, status: u8, written: &'a str) -> Case<'a> {
    failing(shows, text, NONE, status, written)
}

/// A session over the two nodes.
const fn failing<'a>(
    shows: &'a str,
    text: &'a str,
    fails: Fails,
    status: u8,
    written: &'a str,
) -> Case<'a> {
    Case {
        shows,
        words: WORDS,
        text,
        store: None,
        records: TWO_NODES,
        fails,
        status,
        written,
    }
}

/// These words, over the two nodes.
const fn by_words<'a>(shows: &'a str, words: &'a str, status: u8, written: &'a str) -> Case<'a> {
    Case {
        words,
        ..plain(shows, QUERY, status, written)
    }
}

/// An insertion over a full graph, which is kept under that name.
const fn in_store<'a>(
    shows: &'a str,
    words: &'a str,
    store: Option<&'a str>,
    status: u8,
    written: &'a str,
) -> Case<'a> {
    Case {
        words,
        store,
        records: FULL,
        ..plain(shows, INSERT, status, written)
    }
}

/// The one query over these records.
const fn over<'a>(shows: &'a str, records: &'a str, status: u8, written: &'a str) -> Case<'a> {
    Case {
        records,
        ..plain(shows, QUERY, status, written)
    }
}

fn check_all<M: Matcher<Graph>>(
    rt: &impl Abort,
    alloc: Global,
    matcher: &M,
    cases: &[Case<'_>],
) -> Result<(), Fail> {
    for case in cases {
        check(rt, alloc, matcher, case)?;
    }
    Ok(())
}

const SYNTAX: &str = "refused E03 SYNTAX\n";

const INSERT: &str = "INSERT (:A);";

const FULL_NODE: &str = "refused E24 FULL NODE\n";

const ROWS: &str = "x\nrows 0\n";

#[test]
fn faults_have_their_statuses(rt: HostRuntime) -> Result<(), Fail> {
    let source = |number| Fails {
        source: number,
        ..NONE
    };
    let sink = |number| Fails {
        sink: number,
        ..NONE
    };
    let keeper = |number| Fails {
        keeper: number,
        ..NONE
    };
    let cases = [
        failing("the file can't be opened", QUERY, source(1), 3, ""),
        failing("the file can't be read", QUERY, source(2), 3, ""),
        failing("the output fails", "RETURN 1;", sink(1), 4, ""),
        failing("the output fails later", "a;b;c", sink(2), 4, SYNTAX),
        failing("the store can't be opened", QUERY, keeper(1), 5, ""),
        failing("the store can't be read", QUERY, keeper(4), 5, ""),
        failing(
            "the store refuses what is kept",
            "INSERT (:A); FOR x IN [] RETURN x;",
            keeper(6),
            1,
            "refused E22 STORE\nx\nrows 0\n",
        ),
    ];
    check_all(&rt, rt.alloc(), &NoMatcher::<HostRuntime>::new(), &cases)
}

#[test]
fn words_have_their_statuses(rt: HostRuntime) -> Result<(), Fail> {
    let fails = Fails { source: 1, ..NONE };
    let selftest = Case {
        words: "gql selftest 1",
        ..failing("the source isn't asked", QUERY, fails, 6, "ok\n")
    };
    let cases = [
        by_words("no session", "gql run", 2, ""),
        by_words("two sessions", "gql run s t", 2, ""),
        by_words("another command", "gql go s", 2, ""),
        by_words("help", "gql run --help", 2, ""),
        by_words("an option", "gql run s --fast", 2, ""),
        by_words("a store without a name", "gql run s --store", 2, ""),
        by_words("no worker", "gql run s --workers 0", 2, ""),
        by_words("64 workers", "gql run s --workers 64", 0, ROWS),
        by_words("65 workers", "gql run s --workers 65", 2, ""),
        by_words("no size", "gql selftest", 2, ""),
        by_words("too large a size", "gql selftest 5001", 2, ""),
        selftest,
    ];
    check_all(&rt, rt.alloc(), &NoMatcher::<HostRuntime>::new(), &cases)
}

#[test]
fn records_have_their_statuses(rt: HostRuntime) -> Result<(), Fail> {
    let cases = [
        over("records without a version", GRAPH, 8, ""),
        over("no graph home", VERSION, 1, "refused E06 NO_SUCH home\n"),
        over("no records", "", 0, ROWS),
        in_store("no number is left", WORDS, None, 1, FULL_NODE),
        in_store("the store of that name", OVER_K, Some("k"), 1, FULL_NODE),
        in_store("another store", OVER_K, Some("l"), 0, "ok\n"),
        in_store("no store", WORDS, Some("k"), 0, "ok\n"),
    ];
    check_all(&rt, rt.alloc(), &NoMatcher::<HostRuntime>::new(), &cases)
}

/// One byte more than a session may have, and all white space.
#[test]
fn a_text_past_the_limit_is_not_run(rt: HostRuntime) -> Result<(), Fail> {
    let alloc = rt.alloc();
    let text = Bytes::from_vec(vec![in alloc; b' '; 67_108_865]?);
    let mut source = source_of(alloc, text, 0)?;
    source.piece = 1 << 20;
    let mut sink = sink_of(alloc, 0)?;
    let mut keeper = keeper_of(alloc, None, Records::new(alloc), 0)?;
    let words = words_of(alloc, WORDS)?;
    let matcher = NoMatcher::<HostRuntime>::new();
    let status = run(alloc, &matcher, &words, &mut source, &mut sink, &mut keeper);
    assert_eq!(rt; code(&status), 7);
    assert!(rt; sink.bytes.is_empty());
    Ok(())
}
