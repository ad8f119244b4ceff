//! The reserved words, each found by its slot, and which texts are names.

ghost use Rattle.std.specs.Prelude.{◌≡◌, ◌<◌, ◌≤◌, map, length, IsTrue, ◌||◌, ◌==◌};
ghost use Rattle.std.specs.List.{list_all, position};
ghost use Rattle.std.specs.Str.{chars};
ghost use Rattle.std.specs.Char.{to_ascii_uppercase};
ghost use Rattle.std.specs.Ordering.{nat_cmp};
ghost use Rattle.std.specs.Cmp.Lexicographic.{slice_cmp};
ghost use Rattle.unicode_ident.specs.Ident.{is_xid_start, is_xid_continue};
ghost use Rattle.gql_values3.specs.Texts.{same_text};
ghost use Rattle.gql_values3.specs.Machinery.WordSlots.{slot, placed};
ghost use Rattle.gql_values3.specs.Names.{ascii_upper, reserved_place, is_name, is_plain_name};

use std::cmp::Ordering;

/// The reserved words, by their places.
static WORDS: [&str; 106] = [
    "ABS",
    "ACYCLIC",
    "ALL",
    "AND",
    "ANY",
    "AS",
    "ASC",
    "ASCENDING",
    "BOOL",
    "BOOLEAN",
    "BY",
    "CARDINALITY",
    "CHAR_LENGTH",
    "CLOSE",
    "COALESCE",
    "COLLECT_LIST",
    "COLUMNS",
    "COMMIT",
    "COUNT",
    "CREATE",
    "DATE",
    "DELETE",
    "DESC",
    "DESCENDING",
    "DESTINATION",
    "DETACH",
    "DIFFERENT",
    "DIRECTED",
    "DISTINCT",
    "DROP",
    "EDGES",
    "ELEMENTS",
    "EXCEPT",
    "EXISTS",
    "FALSE",
    "FILTER",
    "FIRST",
    "FOR",
    "FROM",
    "GRAPH",
    "GRAPH_TABLE",
    "GROUP",
    "GROUPS",
    "IF",
    "IN",
    "INSERT",
    "INT",
    "INT64",
    "INTEGER",
    "INTERSECT",
    "IS",
    "LABELED",
    "LAST",
    "LET",
    "LIMIT",
    "LIST",
    "MATCH",
    "MAX",
    "MIN",
    "MOD",
    "NEXT",
    "NODETACH",
    "NOT",
    "NULL",
    "NULLS",
    "OF",
    "OFFSET",
    "ONLY",
    "OPTIONAL",
    "OR",
    "ORDER",
    "ORDINALITY",
    "OTHERWISE",
    "PATH",
    "PATHS",
    "PATH_LENGTH",
    "PROPERTY",
    "READ",
    "REMOVE",
    "REPEATABLE",
    "RESET",
    "RETURN",
    "ROLLBACK",
    "SELECT",
    "SESSION",
    "SET",
    "SHORTEST",
    "SIMPLE",
    "SKIP",
    "SOURCE",
    "START",
    "STRING",
    "SUM",
    "TRAIL",
    "TRANSACTION",
    "TRUE",
    "TYPE",
    "TYPED",
    "UNION",
    "UNKNOWN",
    "VALUE",
    "WALK",
    "WHERE",
    "WITH",
    "WRITE",
    "XOR",
];

/// The place of the word at each slot. A slot without a word has a number beyond the places.
static PLACES: [u8; 512] = [
    255, 255, 255, 255, 255, 255, 255, 74, 90, 255, 255, 73, 255, 255, 255, 1, 255, 255, 255, 82,
    255, 255, 255, 255, 255, 255, 255, 255, 255, 255, 255, 105, 255, 255, 255, 255, 255, 54, 255,
    15, 255, 255, 255, 255, 255, 255, 13, 255, 255, 255, 255, 255, 91, 53, 255, 101, 104, 89, 102,
    255, 255, 255, 255, 255, 255, 255, 255, 60, 31, 79, 255, 255, 255, 255, 255, 58, 255, 255, 255,
    255, 255, 255, 255, 255, 255, 255, 255, 255, 94, 255, 86, 7, 255, 255, 98, 255, 255, 255, 255,
    255, 255, 255, 255, 255, 255, 255, 255, 255, 255, 255, 255, 255, 255, 255, 255, 255, 255, 255,
    29, 255, 38, 22, 255, 255, 255, 26, 255, 255, 255, 255, 255, 255, 255, 255, 255, 255, 255, 255,
    255, 255, 255, 255, 255, 255, 255, 59, 48, 55, 255, 255, 255, 100, 255, 21, 255, 255, 255, 83,
    255, 255, 255, 61, 255, 255, 255, 92, 255, 255, 255, 20, 47, 255, 65, 255, 255, 62, 255, 36,
    49, 88, 255, 255, 255, 34, 255, 255, 255, 17, 255, 255, 255, 255, 44, 255, 41, 255, 255, 255,
    255, 255, 255, 255, 255, 255, 4, 80, 42, 16, 255, 255, 39, 255, 255, 255, 255, 255, 255, 255,
    255, 255, 255, 255, 255, 255, 255, 255, 255, 56, 255, 255, 255, 255, 255, 255, 255, 28, 255,
    255, 255, 255, 255, 255, 19, 255, 255, 255, 72, 6, 69, 255, 255, 52, 255, 255, 255, 255, 2,
    255, 32, 255, 255, 255, 255, 87, 255, 75, 68, 27, 255, 255, 255, 255, 255, 255, 255, 25, 76,
    255, 255, 255, 255, 255, 255, 9, 255, 255, 255, 255, 255, 255, 255, 255, 255, 255, 255, 255,
    255, 18, 255, 255, 255, 255, 255, 255, 255, 255, 255, 255, 255, 50, 255, 255, 43, 255, 255, 84,
    255, 255, 255, 255, 255, 11, 255, 255, 255, 5, 46, 35, 12, 255, 255, 255, 255, 255, 255, 255,
    255, 96, 255, 255, 255, 103, 255, 255, 255, 255, 255, 77, 255, 255, 255, 255, 255, 255, 255,
    255, 255, 97, 255, 255, 255, 8, 255, 81, 255, 255, 255, 255, 255, 255, 255, 255, 0, 255, 3,
    255, 255, 255, 255, 255, 255, 14, 255, 255, 255, 255, 99, 63, 33, 255, 255, 64, 255, 255, 255,
    255, 255, 255, 255, 255, 255, 255, 255, 255, 255, 255, 255, 255, 255, 255, 255, 255, 255, 255,
    255, 57, 255, 255, 255, 255, 255, 255, 255, 255, 255, 10, 255, 255, 255, 255, 70, 255, 255,
    255, 255, 255, 255, 255, 255, 255, 255, 255, 255, 255, 255, 255, 255, 255, 255, 255, 67, 37,
    40, 255, 255, 255, 255, 255, 255, 255, 255, 255, 255, 255, 255, 51, 255, 255, 255, 255, 255,
    255, 66, 255, 255, 255, 255, 23, 255, 255, 255, 24, 255, 255, 255, 255, 255, 85, 255, 255, 255,
    255, 95, 255, 255, 255, 93, 255, 255, 255, 255, 255, 30, 255, 255, 255, 71, 255, 45, 78, 255,
    255,
];

/// The place of the reserved word that the text is, in any case of its letters. Places count from 0, by bytes. It
/// takes no memory.
pub fn reserved_place(text: &str) -> Option<u32>
    ensures { result ≡ reserved_place text.now }
{
    if text.len() < 2 {
        return None;
    }
    if text.len() > 12 {
        return None;
    }
    place_among(WORDS.as_slice(), PLACES.as_slice(), text)
}

/// Whether the text is a name and no reserved word, so that it needs no quotes. It takes no memory.
pub fn plain_name(text: &str) -> bool
    ensures { result ≡ is_plain_name text.now }
{
    match reserved_place(text) {
        None => spells_name(text),
        Some(_) => false,
    }
}

/// Whether the characters of the text are those of a name, reserved or not. It takes no memory.
pub fn spells_name(text: &str) -> bool
    ensures { result ≡ is_name text.now }
{
    let mut rest = text.chars();
    match rest.next() {
        Some(first) => starts(first) && all_continue(rest.as_str()),
        None => false,
    }
}

/// Whether a name may begin with the character.
fn starts(first: char) -> bool
    ensures { result ≡ (is_xid_start first || (first == 95)) }
{
    unicode_ident::is_xid_start(first) | (first == '_')
}

/// Whether all characters may stand in a name.
fn all_continue(text: &str) -> bool
    ensures { result ≡ list_all is_xid_continue (chars text.now) }
{
    text.chars().all(|c| unicode_ident::is_xid_continue(c))
}

/// The place of the text in upper case among words that stand where their slots tell.
fn place_among(words: &[&str], places: &[u8], text: &str) -> Option<u32>
    requires size { (2 ≤ length text.now) × (length text.now ≤ 12) }
    requires slots { 512 ≤ length places.now }
    requires placed { IsTrue (placed places.now 0 (map (λ w. w.now) words.now)) }
    ensures { result ≡ position (same_text (ascii_upper text.now)) (map (λ w. w.now) words.now) }
{
    let place = places[slot_of(text.as_bytes())];
    match words.get(usize::from(place)) {
        Some(word) => {
            if order_of(*word, text).is_eq() {
                Some(u32::from(place))
            } else {
                None
            }
        }
        None => None,
    }
}

/// The slot of a text.
fn slot_of(text: &[u8]) -> usize
    requires size { (2 ≤ length text.now) × (length text.now ≤ 12) }
    ensures value { result ≡ slot text.now }
    ensures bound { result < 512 }
{
    let first = upper(text[0]);
    let second = upper(text[1]);
    let last = upper(text[text.len() - 1]);
    (62 * first + 51 * second + 382 * last + 402 * text.len()) % 512
}

/// The code of a letter's upper case.
fn upper(byte: u8) -> usize
    ensures value { result ≡ to_ascii_uppercase byte }
    ensures bound { result < 256 }
{
    usize::from(byte.to_ascii_uppercase())
}

/// The order of a word and a text in upper case.
fn order_of(word: &str, text: &str) -> Ordering
    ensures { result ≡ slice_cmp nat_cmp word.now (ascii_upper text.now) }
{
    word.bytes()
        .cmp(text.bytes().map(|b| b.to_ascii_uppercase()))
}
