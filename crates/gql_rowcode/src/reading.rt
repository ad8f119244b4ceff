//! Records read one by one, in order by key, into a catalog.

ghost use Rattle.std.specs.Prelude.{◌≡◌, ℕ, ◌⊎◌, ◌<◌, IfOk, OnOk, MatchResult, length};
ghost use Rattle.gql_graph.specs.Catalog.{CatalogData, is_before};
ghost use Rattle.gql_fields.specs.Machinery.Reading.{Gives};
ghost use Rattle.gql_rowcode.specs.Records.{Form, IsForm, key_of, value_of};
ghost use Rattle.gql_rowcode.specs.StandFor.{StandFor};
ghost use Rattle.gql_rowcode.specs.FirstBad.{FirstBad};
ghost use Rattle.gql_rowcode.specs.Machinery.Noted.{record_after, noted_of, IsNoted, WasRead};

use crate::catalog::catalog_of;
use crate::fault::ReadFault;
use crate::form::read_form;
use crate::noting::after_form;
use crate::seen::Seen;
use gql_fields::Misread;
use gql_graph::Catalog;
use gql_ports::Record;
use std::alloc::Global;
use std::cmp::Ordering;

/// The catalog that the records stand for. Takes time in proportion to the records' bytes, times the logarithm of how many there are.
///
/// # Errors
///
/// The first record at fault, counted from 0, or want of memory.
pub fn read(alloc: Global, records: &[Record]) -> Result<Catalog, ReadFault>
    // the catalog, or the first record at fault
    ensures found { IfOk result (λ c. StandFor records.now c) }
    ensures bad { (i : ℕ) → result ≡ Err (ReadFault.BadRecord i) → FirstBad records.now i }
    // the other way round: a fault is told, and records of a catalog are read as that catalog, unless there is no memory
    ensures at_fault { (i : ℕ) → FirstBad records.now i → MatchResult result (λ _. ⊥) (λ e. (e ≡ ReadFault.BadRecord i) ⊎ (e ≡ ReadFault.OutOfMemory)) }
    ensures complete { (c : CatalogData) → StandFor records.now c → MatchResult result (λ d. d ≡ c) (λ e. e ≡ ReadFault.OutOfMemory) }
    // no records stand for two catalogs
    ensures single { (c d : CatalogData) → StandFor records.now c → StandFor records.now d → c ≡ d }
{
    if records.is_empty() {
        return Ok(Catalog::initial(alloc)?);
    }
    let seen = walk(alloc, records)?;
    Ok(catalog_of(seen)?)
}

fn walk(alloc: Global, records: &[Record]) -> Result<Seen, ReadFault>
    ensures read { IfOk result (λ seen. WasRead records.now (noted_of seen)) }
    ensures bad { (i : ℕ) → result ≡ Err (ReadFault.BadRecord i) → FirstBad records.now i }
{
    let mut seen = Seen {
        types: Vec::new(alloc),
        graphs: Vec::new(alloc),
    };
    // No key is below no bytes, and none is no bytes.
    let mut last: &[u8] = &[];
    for place in 0..records.len() {
        let found = &records[place];
        let key = found.key.as_slice();
        match after_record(alloc, seen, last, place == 0, key, found.value.as_slice()) {
            Ok(next) => seen = next,
            Err(Misread::OutOfMemory) => return Err(ReadFault::OutOfMemory),
            Err(Misread::NoForm) => return Err(ReadFault::BadRecord(place as u64)),
        }
        last = key;
    }
    Ok(seen)
}

#[tactic(auto, unfolding(crate::specs::Machinery::Noted::record_after))]
fn after_record(
    alloc: Global,
    seen: Seen,
    last: &[u8],
    first: bool,
    key: &[u8],
    value: &[u8],
) -> Result<Seen, Misread>
    requires { IsNoted (noted_of seen) }
    ensures told { Gives noted_of result (record_after last.now first (noted_of seen) key.now value.now) }
    ensures spelled { OnOk result ((f : Form) × IsForm f × (key.now ≡ key_of f) × (value.now ≡ value_of f)) }
{
    if !is_below(last, key) {
        return Err(Misread::NoForm);
    }
    let form = read_form(alloc, key, value)?;
    after_form(alloc, seen, first, form)
}

fn is_below(a: &[u8], b: &[u8]) -> bool
    ensures { result ≡ is_before a.now b.now }
{
    match a.cmp(b) {
        Ordering::Less => true,
        Ordering::Equal => false,
        Ordering::Greater => false,
    }
}
