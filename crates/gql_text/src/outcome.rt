//! What is printed for an outcome: a table, a refusal, or `ok`.

ghost use Rattle.std.specs.Prelude.{◌≡◌, [], ◌∷◌, ◌++◌, OnOk, OnErr, map, codes, length, take};
ghost use Rattle.std.specs.List.{flat_map};
ghost use Rattle.std.specs.Fmt.{decimal};
ghost use Rattle.gql_values3.specs.Meaning.{datum_of};
ghost use Rattle.gql_ast.specs.ValueText.{value_text, header_text};
ghost use Rattle.gql_text.specs.OutcomeText.{line, behind_tab, cells, row_text, table_text, refusal_text, outcome_text};
ghost use Rattle.gql_text.specs.Machinery.Growing.{BeginsWith};

use crate::refusal::push_refusal;
use gql_ast::{Outcome, Refusal, push_header, push_number, push_value};
use gql_values3::{Bytes, OutOfMemory, Row, Table, Text, Value};
use std::alloc::Global;
use std::mem;

/// How many bytes of a table's rows are gathered before they are added.
const PART: usize = 65_536;

/// How many bytes a row is guessed to take.
const ROW: usize = 16;

/// Adds what is printed for an outcome to the bytes; an Err leaves them as they were. A table is added part by part, so
/// that its text stands in memory once.
pub fn put_outcome(alloc: Global, outcome: &Outcome, out: &mut Bytes) -> Result<(), OutOfMemory>
    ensures ok { OnOk result (out.new ≡ out.old ++ outcome_text outcome.now) }
    ensures err { OnErr result (out.new ≡ out.old) }
{
    let before = out.len();
    match add_outcome(alloc, outcome, out) {
        Ok(()) => Ok(()),
        Err(error) => {
            shorten(alloc, out, before);
            Err(error)
        }
    }
}

/// Takes away what stands behind the first bytes.
fn shorten(alloc: Global, out: &mut Bytes, len: usize)
    ensures { out.new ≡ take len out.old }
{
    let mut bytes = mem::replace(out, Bytes::new(alloc)).into_vec();
    bytes.truncate(len);
    *out = Bytes::from_vec(bytes);
}

/// Adds what is printed for an outcome; an Err may leave a part of it.
fn add_outcome(alloc: Global, outcome: &Outcome, out: &mut Bytes) -> Result<(), OutOfMemory>
    ensures ok { OnOk result (out.new ≡ out.old ++ outcome_text outcome.now) }
    ensures err { OnErr result (BeginsWith out.old out.new) }
{
    match outcome {
        Outcome::Done => add_part(out, "ok\n"),
        Outcome::Table(table) => add_table(alloc, table, out),
        Outcome::Refused(refusal) => add_refusal(alloc, refusal, out),
    }
}

/// Adds a text.
fn add_part(out: &mut Bytes, part: &str) -> Result<(), OutOfMemory>
    ensures ok { OnOk result (out.new ≡ out.old ++ part.now) }
    ensures err { OnErr result (BeginsWith out.old out.new) }
{
    out.append(part.as_bytes())
}

/// Adds the line of a refusal.
fn add_refusal(alloc: Global, refusal: &Refusal, out: &mut Bytes) -> Result<(), OutOfMemory>
    ensures ok { OnOk result (out.new ≡ out.old ++ line (codes "refused " ++ refusal_text refusal.now)) }
    ensures err { OnErr result (BeginsWith out.old out.new) }
{
    let mut text = Text::new(alloc);
    push_refusal_line(&mut text, refusal)?;
    add_part(out, text.as_str())
}

fn push_refusal_line(text: &mut Text, refusal: &Refusal) -> Result<(), OutOfMemory>
    ensures { OnOk result (text.new ≡ text.old ++ line (codes "refused " ++ refusal_text refusal.now)) }
{
    text.push_str("refused ")?;
    push_refusal(text, refusal)?;
    text.push_str("\n")
}

/// Adds a table: the names of its columns, its rows, and how many rows there are.
fn add_table(alloc: Global, table: &Table, out: &mut Bytes) -> Result<(), OutOfMemory>
    ensures ok { OnOk result (out.new ≡ out.old ++ table_text table.now) }
    ensures err { OnErr result (BeginsWith out.old out.new) }
{
    add_headers(alloc, table.columns.as_slice(), out)?;
    add_rows(alloc, table.rows.as_slice(), out)?;
    add_count(alloc, table.rows.len(), out)
}

/// Adds the line of the columns' names.
fn add_headers(alloc: Global, names: &[Text], out: &mut Bytes) -> Result<(), OutOfMemory>
    ensures ok { OnOk result (out.new ≡ out.old ++ line (cells (map header_text names.now))) }
    ensures err { OnErr result (BeginsWith out.old out.new) }
{
    let mut text = Text::new(alloc);
    push_headers(&mut text, names)?;
    add_part(out, text.as_str())
}

/// Adds a line for each row.
fn add_rows(alloc: Global, rows: &[Row], out: &mut Bytes) -> Result<(), OutOfMemory>
    ensures ok { OnOk result (out.new ≡ out.old ++ flat_map row_text rows.now) }
    ensures err { OnErr result (BeginsWith out.old out.new) }
{
    let room = rows.len().saturating_mul(ROW).min(PART);
    let mut part = Text::with_room(alloc, room)?;
    for row in rows {
        add_row(alloc, row.as_slice(), &mut part, out)?;
    }
    add_part(out, part.as_str())
}

/// Adds the line of a row to the part that is gathered, which is added where it is long enough.
fn add_row(
    alloc: Global,
    row: &[Value],
    part: &mut Text,
    out: &mut Bytes,
) -> Result<(), OutOfMemory>
    ensures ok { OnOk result (out.new ++ part.new ≡ (out.old ++ part.old) ++ row_text (map datum_of row.now)) }
    ensures begins { BeginsWith out.old out.new }
{
    push_row(part, row)?;
    if part.len() < PART {
        return Ok(());
    }
    hand_over(alloc, part, out)
}

/// Adds the part that was gathered, of which nothing is left.
fn hand_over(alloc: Global, part: &mut Text, out: &mut Bytes) -> Result<(), OutOfMemory>
    ensures ok { OnOk result (out.new ≡ out.old ++ part.old) }
    ensures empty { OnOk result (part.new ≡ []) }
    ensures begins { BeginsWith out.old out.new }
{
    out.append(part.as_str().as_bytes())?;
    *part = Text::with_room(alloc, PART)?;
    Ok(())
}

/// Adds the line that counts the rows.
fn add_count(alloc: Global, count: usize, out: &mut Bytes) -> Result<(), OutOfMemory>
    ensures ok { OnOk result (out.new ≡ out.old ++ line (codes "rows " ++ decimal count)) }
    ensures err { OnErr result (BeginsWith out.old out.new) }
{
    let mut text = Text::new(alloc);
    push_count(&mut text, count)?;
    add_part(out, text.as_str())
}

/// Adds the line of the columns' names.
fn push_headers(text: &mut Text, names: &[Text]) -> Result<(), OutOfMemory>
    ensures { OnOk result (text.new ≡ text.old ++ line (cells (map header_text names.now))) }
{
    if let Some((first, rest)) = names.split_first() {
        push_header(text, first.as_str())?;
        push_more_headers(text, rest)?;
    }
    text.push_str("\n")
}

/// Adds names of columns, each behind a tab.
fn push_more_headers(text: &mut Text, names: &[Text]) -> Result<(), OutOfMemory>
    ensures { OnOk result (text.new ≡ text.old ++ flat_map behind_tab (map header_text names.now)) }
{
    for name in names {
        text.push_str("\t")?;
        push_header(text, name.as_str())?;
    }
    Ok(())
}

/// Adds the line of a row.
fn push_row(text: &mut Text, values: &[Value]) -> Result<(), OutOfMemory>
    ensures { OnOk result (text.new ≡ text.old ++ row_text (map datum_of values.now)) }
{
    if let Some((first, rest)) = values.split_first() {
        push_value(text, first)?;
        push_more_values(text, rest)?;
    }
    text.push_str("\n")
}

/// Adds values, each behind a tab.
fn push_more_values(text: &mut Text, values: &[Value]) -> Result<(), OutOfMemory>
    ensures { OnOk result (text.new ≡ text.old ++ flat_map behind_tab (map value_text (map datum_of values.now))) }
{
    for value in values {
        text.push_str("\t")?;
        push_value(text, value)?;
    }
    Ok(())
}

/// Adds the line that counts the rows.
fn push_count(text: &mut Text, count: usize) -> Result<(), OutOfMemory>
    ensures { OnOk result (text.new ≡ text.old ++ line (codes "rows " ++ decimal count)) }
{
    text.push_str("rows ")?;
    push_number(text, count as u64)?;
    text.push_str("\n")
}
