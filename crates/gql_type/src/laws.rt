//! What holds of all lexemes: functions that do nothing and whose contracts are the laws.

ghost use Rattle.std.specs.Prelude.{List};
ghost use Rattle.gql_lexer.specs.declared.lexeme.Lexeme.{Lexeme};
ghost use Rattle.gql_front.specs.Longest.{Longest};
ghost use Rattle.gql_type.specs.TypeGrammar.{IsTypeBody};
ghost use Rattle.gql_type.specs.Machinery.TypeReaders.{type_body_of};

/// What is read of the body of a graph type is the longest front that derives one, with its one tree; nothing is read exactly
/// where no front derives one.
pub fn the_longest_type_is_read()
    ensures { (lexemes : List Lexeme) → Longest IsTypeBody lexemes (type_body_of lexemes) }
{}
