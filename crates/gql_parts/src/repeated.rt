//! Items one behind another, with nothing between them.

ghost use Rattle.std.specs.Prelude.{◌≡◌, ◌+◌, ◌≤◌, length, IfOk};
ghost use Rattle.gql_front.specs.Reading.{many};

use crate::item::Item;
use gql_ast::ParseFault;
use gql_lexer::Lexeme;
use gql_values3::{OutOfMemory, Sequence};
use std::alloc::Global;

/// As many items as there are, one behind another.
pub fn many<'a, By, T: Item<By>>(
    alloc: Global,
    start: &'a [Lexeme],
) -> Result<(Sequence<T>, &'a [Lexeme]), OutOfMemory>
    ensures given { IfOk result (λ x. (x.0, x.1.now) ≡ many T.reader (length start.now) start.now) }
    ensures shorter { IfOk result (λ x. length x.0 + length x.1.now ≤ length start.now) }
{
    let mut items = Sequence::new(alloc);
    let mut rest = start;
    'more: loop {
        match T::read(alloc, rest) {
            Ok((item, behind)) => {
                items.push(item)?;
                rest = behind;
            }
            Err(ParseFault::Syntax) => return Ok((items, rest)),
            Err(ParseFault::Deep) => unreachable!(),
            Err(ParseFault::OutOfMemory) => return Err(OutOfMemory),
        }
    }
}
