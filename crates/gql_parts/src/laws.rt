//! What holds of all lexemes: functions that do nothing and whose contracts are the laws.

ghost use Rattle.std.specs.Prelude.{List};
ghost use Rattle.gql_lexer.specs.declared.lexeme.Lexeme.{Lexeme};
ghost use Rattle.gql_front.specs.Longest.{Longest};
ghost use Rattle.gql_parts.specs.Parts.{IsOptional};
ghost use Rattle.gql_parts.specs.Values.{IsValue, IsLabels};
ghost use Rattle.gql_parts.specs.FillerGrammar.{IsWhere, IsFiller};
ghost use Rattle.gql_parts.specs.Machinery.PartReaders.{read_value, read_labels};
ghost use Rattle.gql_parts.specs.Machinery.FillerReaders.{where_of, filler_of};

/// What is read of a filler, of a WHERE that may be missing, of an expression and of a label expression is the longest
/// front that derives one, with its one tree.
pub fn the_longest_part_is_read()
    ensures filler { (lexemes : List Lexeme) → Longest IsFiller lexemes (filler_of lexemes) }
    ensures held { (lexemes : List Lexeme) → Longest (IsOptional IsWhere) lexemes (where_of lexemes) }
    ensures value { (lexemes : List Lexeme) → Longest IsValue lexemes (read_value lexemes) }
    ensures labels { (lexemes : List Lexeme) → Longest IsLabels lexemes (read_labels lexemes) }
{}
