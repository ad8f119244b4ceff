//! The first wide number in sort keys, OFFSET and LIMIT.

ghost use Rattle.std.specs.Prelude.{◌≡◌, find};
ghost use Rattle.std.specs.List.{flat_map};
ghost use Rattle.std.specs.Option.{option_copied};
ghost use Rattle.gql_ast.specs.NumberLiterals.{is_wide, within, numbers_in_count, numbers_in_key, numbers_in_order, numbers_in_page, numbers_in_range};

use super::expressions::in_expr;
use super::numerals::if_wide;
use gql_ast::{Page, RowCount, SortItem};
use gql_values3::Text;

/// The first number of a page that is too large.
#[tactic(auto, using(crate::proofs::FindLemmas::in_both))]
pub fn in_page(page: &Page) -> Option<&Text>
    ensures { option_copied result ≡ find is_wide (numbers_in_page page.now) }
{
    match page {
        Page::Order(items, skip, limit) => match in_order(items.as_slice()) {
            Some(digits) => Some(digits),
            None => in_range(skip, limit),
        },
        Page::Skip(skip, limit) => match in_count(skip) {
            Some(digits) => Some(digits),
            None => in_count_of(limit),
        },
        Page::Limit(limit) => in_count(limit),
    }
}

/// The first number of the keys of an ORDER BY that is too large.
#[tactic(auto, using(crate::proofs::FindLemmas::in_item))]
pub fn in_order(items: &[SortItem]) -> Option<&Text>
    ensures { option_copied result ≡ find is_wide (numbers_in_order items.now) }
{
    for item in items {
        if let Some(digits) = in_expr(&item.key) {
            return Some(digits);
        }
    }
    None
}

/// The first number of an OFFSET and a LIMIT that is too large.
#[tactic(auto, using(crate::proofs::FindLemmas::in_both))]
pub fn in_range<'s>(skip: &'s Option<RowCount>, limit: &'s Option<RowCount>) -> Option<&'s Text>
    ensures { option_copied result ≡ find is_wide (numbers_in_range skip.now limit.now) }
{
    match in_count_of(skip) {
        Some(digits) => Some(digits),
        None => in_count_of(limit),
    }
}

fn in_count_of(count: &Option<RowCount>) -> Option<&Text>
    ensures { option_copied result ≡ find is_wide (within numbers_in_count count.now) }
{
    match count {
        Some(count) => in_count(count),
        None => None,
    }
}

fn in_count(count: &RowCount) -> Option<&Text>
    ensures { option_copied result ≡ find is_wide (numbers_in_count count.now) }
{
    match count {
        RowCount::Number(digits) => if_wide(digits),
        RowCount::Parameter(_) => None,
    }
}
