//! RETURN: its columns, GROUP BY, and the sort keys and numbers of rows behind them.

ghost use Rattle.std.specs.Prelude.{◌≡◌, ◌<◌, ◌≤◌, length, IfOk};
ghost use Rattle.gql_front.specs.Reads.{Reads, MayRead};
ghost use Rattle.gql_statements.specs.Machinery.ReturnReaders.{alias_of, return_items_of, grouping_of, ordering_of, return_of};

use crate::clause::Clauses;
use crate::page_clause::{limit, skip};
use gql_ast::{Return, ReturnItem, ReturnItems, SortItems};
use gql_exprs::quantifier_of;
use gql_front::{NoFront, ParseResult, after_sign, after_word, plain_name};
use gql_lexer::Lexeme;
use gql_lexer::symbols::STAR;
use gql_lexer::words::{AS, BY, GROUP, ORDER};
use gql_parts::{Item, item_behind_word, list, value};
use gql_values3::{Names, Text};
use std::alloc::Global;

impl Item<Clauses> for ReturnItem {
    ghost use Rattle.gql_statements.specs.Machinery.ReturnReaders.{return_item_of};

    ghost reader = { return_item_of };

    #[tactic(auto, unfolding(crate::specs::Machinery::ReturnReaders::return_item_of))]
    fn read<'a>(alloc: Global, rest: &'a [Lexeme]) -> ParseResult<'a, ReturnItem> {
        let (value, rest) = value(alloc, rest)?;
        let (name, rest) = alias(alloc, rest)?;
        Ok((ReturnItem { value, name }, rest))
    }
}

/// A name of GROUP BY.
impl Item<Clauses> for Text {
    ghost use Rattle.gql_front.specs.Reading.{op_at, name_in};

    ghost reader = { op_at name_in };

    fn read<'a>(alloc: Global, rest: &'a [Lexeme]) -> ParseResult<'a, Text> {
        let (name, rest) = plain_name(rest)?;
        Ok((name.try_copy(alloc)?, rest))
    }
}

/// BY and names.
impl Item<Clauses> for Names {
    ghost use Rattle.gql_statements.specs.Machinery.ReturnReaders.{grouped_of};

    ghost reader = { grouped_of };

    #[tactic(auto, unfolding(crate::specs::Machinery::ReturnReaders::grouped_of, crate::specs::Machinery::ReturnReaders::names_of))]
    fn read<'a>(alloc: Global, rest: &'a [Lexeme]) -> ParseResult<'a, Names> {
        let rest = after_word(BY, rest)?;
        list::<Clauses, Text>(alloc, rest)
    }
}

/// A RETURN with all its parts, behind that word.
#[tactic(auto, unfolding(crate::specs::Machinery::ReturnReaders::return_of))]
pub fn return_behind<'a>(alloc: Global, rest: &'a [Lexeme]) -> ParseResult<'a, Return>
    ensures { Reads result rest.now return_of }
{
    let (quantifier, rest) = quantifier_of(rest);
    let (items, rest) = return_items(alloc, rest)?;
    let (grouping, rest) = grouping(alloc, rest)?;
    let (order, rest) = ordering(alloc, rest)?;
    let (skip, rest) = skip(alloc, rest)?;
    let (limit, rest) = limit(alloc, rest)?;
    Ok((
        Return {
            quantifier,
            items,
            grouping,
            order,
            skip,
            limit,
        },
        rest,
    ))
}

/// A star, or columns between commas.
#[tactic(auto, unfolding(crate::specs::Machinery::ReturnReaders::return_items_of, crate::specs::Machinery::ReturnReaders::return_list_of))]
fn return_items<'a>(alloc: Global, rest: &'a [Lexeme]) -> ParseResult<'a, ReturnItems>
    ensures { Reads result rest.now return_items_of }
{
    match after_sign(STAR, rest) {
        Ok(behind) => Ok((ReturnItems::All, behind)),
        Err(NoFront) => {
            let (items, behind) = list::<Clauses, ReturnItem>(alloc, rest)?;
            Ok((ReturnItems::Listed(items), behind))
        }
    }
}

/// AS and a name, or nothing.
#[tactic(auto, unfolding(crate::specs::Machinery::ReturnReaders::alias_of))]
fn alias<'a>(alloc: Global, rest: &'a [Lexeme]) -> ParseResult<'a, Option<Text>>
    ensures { MayRead result rest.now alias_of }
{
    item_behind_word::<Clauses, Text>(alloc, AS, rest)
}

/// GROUP BY and names, or nothing.
#[tactic(auto, unfolding(crate::specs::Machinery::ReturnReaders::grouping_of))]
fn grouping<'a>(alloc: Global, rest: &'a [Lexeme]) -> ParseResult<'a, Option<Names>>
    ensures { MayRead result rest.now grouping_of }
{
    item_behind_word::<Clauses, Names>(alloc, GROUP, rest)
}

/// ORDER BY and sort keys, or nothing.
#[tactic(auto, unfolding(crate::specs::Machinery::ReturnReaders::ordering_of))]
fn ordering<'a>(alloc: Global, rest: &'a [Lexeme]) -> ParseResult<'a, Option<SortItems>>
    ensures { MayRead result rest.now ordering_of }
{
    item_behind_word::<Clauses, SortItems>(alloc, ORDER, rest)
}
