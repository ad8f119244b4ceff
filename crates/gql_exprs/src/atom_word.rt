//! The words that begin an atom.

ghost use Rattle.std.specs.Prelude.{◌≡◌};
ghost use Rattle.gql_front.specs.Tables.{entry};
ghost use Rattle.gql_exprs.specs.ExprWords.{atom_words};

use gql_ast::{Aggregate, Function};
use gql_lexer::words::{
    ABS, CARDINALITY, CHAR_LENGTH, COALESCE, COLLECT_LIST, COUNT, ELEMENTS, FALSE, LIST, MAX, MIN,
    MOD, NULL, PATH_LENGTH, SUM, TRUE, UNKNOWN,
};

/// What a reserved word at the front begins an atom of.
#[derive(Clone, Copy, Debug, PartialEq, Eq)]
pub enum AtomWord {
    True,
    False,
    Unknown,
    Null,
    /// LIST, before a bracket.
    List,
    Aggregate(Aggregate),
    Call(Function),
    Mod,
    Coalesce,
}

/// What the reserved word of the place begins, if it begins an atom.
pub fn atom_word(place: u32) -> Option<AtomWord>
    ensures { result ≡ entry atom_words place }
{
    Some(match place {
        TRUE => AtomWord::True,
        FALSE => AtomWord::False,
        UNKNOWN => AtomWord::Unknown,
        NULL => AtomWord::Null,
        LIST => AtomWord::List,
        COUNT => AtomWord::Aggregate(Aggregate::Count),
        SUM => AtomWord::Aggregate(Aggregate::Sum),
        MIN => AtomWord::Aggregate(Aggregate::Min),
        MAX => AtomWord::Aggregate(Aggregate::Max),
        COLLECT_LIST => AtomWord::Aggregate(Aggregate::CollectList),
        ABS => AtomWord::Call(Function::Abs),
        CHAR_LENGTH => AtomWord::Call(Function::CharLength),
        CARDINALITY => AtomWord::Call(Function::Cardinality),
        PATH_LENGTH => AtomWord::Call(Function::PathLength),
        ELEMENTS => AtomWord::Call(Function::Elements),
        MOD => AtomWord::Mod,
        COALESCE => AtomWord::Coalesce,
        _ => return None,
    })
}
